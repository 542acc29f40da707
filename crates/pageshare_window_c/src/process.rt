//! All windows of a process behind a handle, for C.
//!
//! C provides a [`ProcessHandle`], which contains no process while its bytes are 0, and passes its address to each call. `window/pageshare_process.h`
//! declares the same functions in C.
mod handle;
mod held;
mod life;
mod lists;
mod notice;
mod page;
mod pages;
mod parts;
mod question;
mod rows;
mod scans;
mod slot;

pub use handle::ProcessHandle;
pub use held::HeldProcess;
pub use life::{
    WindowOffer, pageshare_process_end, pageshare_process_free, pageshare_process_make,
    pageshare_process_offer, pageshare_process_set_facts, pageshare_process_set_state,
    pageshare_process_take_out,
};
pub use lists::{
    ListStep, ProcessList, pageshare_process_list, pageshare_process_released,
    pageshare_process_to_release,
};
pub use notice::ProcessNotice;
pub use page::{pageshare_process_note_page, pageshare_process_read_pages};
pub use pages::{
    PartRead, pageshare_process_find_staying, pageshare_process_mappings, pageshare_process_may,
    pageshare_process_next_run, pageshare_process_note, pageshare_process_read_part,
};
pub use parts::{
    PartChange, ProcessPartNotice, pageshare_process_note_part, pageshare_process_pin,
};
pub use question::ProcessQuestion;
pub use rows::{
    pageshare_process_begin_row, pageshare_process_next_of_row, pageshare_process_row_done,
};
pub use scans::{ProcessScan, ScanStep, pageshare_process_glance_numbers, pageshare_process_scan};
pub use slot::ProcessSlot;
