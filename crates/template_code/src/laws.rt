//! What holds of templates wherever they are placed.

ghost use Rattle.template_code.specs.Laws.{SizesKnowNoLabels};

/// The sizes of templates depend on no label.
pub fn sizes_are_fixed()
    ensures { SizesKnowNoLabels }
{}
