//! Laws of the bytes of written images.

ghost use Rattle.image_tables.specs.OctetLaws.{LinkedAreOctets, ResolvedAreOctets};

/// The image of a program that can be linked is written as octets, where its globals are octets;
/// and the globals of a program that a text is resolved to are.
pub fn octets()
    ensures linked { LinkedAreOctets }
    ensures resolved { ResolvedAreOctets }
{}
