// Where the files of a folder stand on the site.
ghost use Rattle.std.specs.Prelude.{◌≡◌, ◌++◌, ◌∷◌, ◌⊎◌, Ok, Err, IfOk, IfErr};
ghost use Rattle.common_types.specs.declared.refused.Refused.{Refused};
ghost use Rattle.folder_import.specs.Selectors as spec;
ghost use Rattle.folder_import.specs.declared.fault.ImportFault.TheVariants as faults;

use crate::ImportFault;
use host_types::Selector;
use std::alloc::{AllocError, Global};

/// The bytes, then a slash, then more bytes.
fn joined(alloc: Global, front: &[u8], behind: &[u8]) -> Result<Vec<u8>, AllocError>
    ensures { IfOk result (λ v. v.items ≡ front.now ++ 47 ∷ behind.now) }
{
    let mut all = Vec::new(alloc);
    all.extend_from_slice(front)?;
    all.push(b'/')?;
    all.extend_from_slice(behind)?;
    Ok(all)
}

/// The path of a file below that of its folder, whatever its name is.
pub fn path_of(alloc: Global, folder: &Selector, name: &[u8]) -> Result<Vec<u8>, AllocError>
    ensures { IfOk result (λ v. v.items ≡ folder.now ++ 47 ∷ name.now) }
{
    joined(alloc, folder.as_bytes(), name)
}

/// The bytes without the slash at their end, where they have one.
fn without_slash(bytes: &[u8]) -> &[u8]
    ensures { result.now ≡ spec.without_slash bytes.now }
{
    if bytes.ends_with(b"/") {
        &bytes[..bytes.len() - 1]
    } else {
        bytes
    }
}

/// The selector of a file below that of its folder.
pub fn child(alloc: Global, folder: &Selector, name: &[u8]) -> Result<Selector, ImportFault>
    ensures named { IfOk result (λ s. spec.child folder.now name.now ≡ Ok s) }
    ensures refused { IfErr result (λ e. (e ≡ faults.Memory) ⊎ ((r : Refused) × (e ≡ faults.Name r) × (spec.child folder.now name.now ≡ Err r))) }
{
    let bytes = joined(alloc, folder.as_bytes(), name)?;
    Ok(Selector::new(&bytes)?)
}

/// The selector that a line of a folder's gophermap leads to: from the top of all folders where it begins with a slash, and else from its folder on. A slash at its end is left out.
pub fn resolved(
    alloc: Global,
    top: &Selector,
    folder: &Selector,
    selector: &[u8],
) -> Result<Selector, ImportFault>
    ensures named { IfOk result (λ s. spec.resolved top.now folder.now selector.now ≡ Ok s) }
    ensures refused { IfErr result (λ e. (e ≡ faults.Memory) ⊎ ((r : Refused) × (e ≡ faults.Name r) × (spec.resolved top.now folder.now selector.now ≡ Err r))) }
{
    let bytes = match selector {
        [b'/', behind @ ..] => joined(alloc, top.as_bytes(), behind)?,
        _ => joined(alloc, folder.as_bytes(), selector)?,
    };
    Ok(Selector::new(without_slash(&bytes))?)
}
