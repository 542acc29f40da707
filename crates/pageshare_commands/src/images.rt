//! Files that are opened as images.
use crate::command_fault::Cause;
use command_terms::ImageCause;
use live_memory::MemoryChoice;
use memory_images::{FileBytes, Image};
use std::alloc::Global;
use std::fs::{self, File, Files, Metadata};
use std::os::unix::fs::FileExt;
use std::time::SystemTime;

/// A file of pages.
pub type FileImage = Image<FileBytes>;

/// Returns which mappings of a process are read.
pub fn choice_of(all_memory: bool) -> MemoryChoice {
    if all_memory {
        MemoryChoice::All
    } else {
        MemoryChoice::Offered
    }
}

/// The length of a file and the time of its last change, which show whether it has changed.
#[derive(Clone, Copy, PartialEq, Eq)]
pub struct FileMark {
    len: u64,
    modified: Option<SystemTime>,
}

impl FileMark {
    fn of(metadata: &Metadata) -> FileMark {
        FileMark {
            len: metadata.len(),
            modified: metadata.modified().ok(),
        }
    }
}

/// Opens a file as an image: as a raw one where `is_raw`, whatever it begins with.
pub fn open_image<R: Files<File = File>>(
    rt: &R,
    alloc: Global,
    path: &str,
    is_raw: bool,
) -> Result<(FileImage, FileMark), Cause> {
    let file = fs::open(rt, path)?;
    let metadata = file.metadata()?;
    if !metadata.is_file() {
        // A folder or a pipe can't be read at a place, and the system says why. A device may be, but has no length.
        file.read_exact_at(&mut [0; 1], 0)?;
        return Err(Cause::Image(ImageCause::NoFile));
    }
    let bytes = FileBytes::new(file)?;
    let image = if is_raw {
        Image::raw(alloc, bytes)?
    } else {
        Image::open(alloc, bytes)?
    };
    Ok((image, FileMark::of(&metadata)))
}

/// Returns a fault if the file isn't what it was when it was opened.
pub fn check_unchanged<R: Files>(rt: &R, path: &str, mark: &FileMark) -> Result<(), Cause> {
    let metadata = fs::metadata(rt, path)?;
    if FileMark::of(&metadata) == *mark {
        Ok(())
    } else {
        Err(Cause::Image(ImageCause::Changed))
    }
}
