// Texts of faults, and laws, which only have to be called.
use crate::line::Line;
use crate::trouble::Trouble;
use host_on_disk::OpenFault;
use page_store::KeeperFault;
use sector_device::DeviceFault;
use site_records::{
    items_have_records, items_share_no_key, keys_are_one_to_one, layout_is_in_order, layout_tells,
    layouts_change, layouts_hold, pairs_stand, records_have_items, records_tell, values_tell,
    worked_examples,
};
use std::alloc::Global;

/// `keeper_faults`: the text of each fault of a keeper, as its own and as that of an opening.
fn show_keeper_faults(alloc: Global, line: &mut Line) -> Result<(), Trouble> {
    for fault in [
        KeeperFault::Device,
        KeeperFault::NoImage,
        KeeperFault::Version,
        KeeperFault::Damaged { page: 5 },
        KeeperFault::Small,
        KeeperFault::Spent,
        KeeperFault::Full { need: 8, free: 7 },
        KeeperFault::Failed,
        KeeperFault::Memory,
        KeeperFault::Deep,
    ] {
        let text = format!(in alloc; "{fault}/{}", OpenFault::Keeper(fault))?;
        line.word(&text)?;
    }
    Ok(())
}

/// `device_faults`: the text of each fault of a device.
fn show_device_faults(alloc: Global, line: &mut Line) -> Result<(), Trouble> {
    for fault in [
        DeviceFault::Device,
        DeviceFault::NoFile,
        DeviceFault::Memory,
    ] {
        let text = format!(in alloc; "{fault}")?;
        line.word(&text)?;
    }
    Ok(())
}

/// `laws`: each law of keys, records and layouts.
fn call_laws() -> Result<(), Trouble> {
    worked_examples();
    keys_are_one_to_one();
    items_share_no_key();
    pairs_stand();
    layout_is_in_order();
    layouts_hold();
    layouts_change();
    values_tell();
    records_tell();
    items_have_records();
    records_have_items();
    layout_tells();
    Ok(())
}

pub fn call(alloc: Global, line: &mut Line, word: &str) -> Result<(), Trouble> {
    match word {
        "keeper_faults" => show_keeper_faults(alloc, line),
        "device_faults" => show_device_faults(alloc, line),
        "laws" => call_laws(),
        _ => Err(Trouble::Line),
    }
}
