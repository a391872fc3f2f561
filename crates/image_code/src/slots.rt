//! The bytes that the imports of an image put over those of its file.

ghost use Rattle.std.specs.Prelude.{◌≡◌, ℕ, IfOk, OnOk};
ghost use Rattle.flat_memory.specs.Memory.{with_number};
ghost use Rattle.host_layout.specs.Services.{address_of};
ghost use Rattle.host_model.specs.Loading.{with_slots};
ghost use Rattle.pe_image.specs.Imports.{imports_of};
ghost use Rattle.image_code.specs.Code.{laid_over};

use host_layout::service::Service;
use pe_image::ImageView;
use std::alloc::{AllocError, Global};
use std::collections::BTreeMap;

/// Puts the address of a service over the eight bytes of a slot.
fn bind(bytes: &mut BTreeMap<u64, u8>, slot: u64, service: Service) -> Result<(), AllocError>
    ensures { OnOk result ((byte : ℕ → ℕ) → laid_over bytes.new byte
        ≡ with_number (laid_over bytes.old byte) 8 slot (address_of service)) }
{
    let address = service.address().to_le_bytes();
    for n in 0..address.len() {
        bytes.insert(slot.wrapping_add(n as u64), address[n])?;
    }
    Ok(())
}

/// The bytes of all slots that are bound, by their addresses relative to the image base: those of
/// the addresses of services, and of slots that overlap those of the later import. An import that
/// names no service binds nothing.
pub fn bound_bytes(alloc: Global, image: &ImageView<'_>) -> Result<BTreeMap<u64, u8>, AllocError>
    ensures { IfOk result (λ bytes. (byte : ℕ → ℕ)
        → laid_over bytes byte ≡ with_slots 0 byte (imports_of image.now)) }
{
    let mut bytes = BTreeMap::new(alloc);
    for import in image.imports() {
        if let Some(service) = Service::named(import.name()) {
            bind(&mut bytes, import.slot(), service)?;
        }
    }
    Ok(bytes)
}
