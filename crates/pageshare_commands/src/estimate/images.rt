//! The images of an estimate.
use crate::command_fault::{Cause, CommandFault};
use crate::images::{FileImage, FileMark, check_unchanged, open_image};
use command_terms::{EstimateWords, ImageCause};
use memory_pages::PageSource;
use page_census::Guest;
use std::alloc::Global;
use std::fs::{File, Files};

/// The images that the words name, each a guest with its salt, and what the system said about their files.
#[derive(Drop)]
pub struct Images {
    pub guests: Vec<Guest<FileImage>>,
    pub marks: Vec<FileMark>,
    /// How many pages they have.
    pub pages: u64,
}

/// Opens each image, or returns the first fault.
pub fn open_images<'a, R: Files<File = File>>(
    rt: &R,
    alloc: Global,
    words: &EstimateWords<'a>,
) -> Result<Images, CommandFault<'a>> {
    let mut images = Images {
        guests: Vec::new(alloc),
        marks: Vec::new(alloc),
        pages: 0,
    };
    for (n, path) in words.images.iter().enumerate() {
        open_next(rt, alloc, path, words.salt_of(n), words.raw, &mut images).map_err(
            |cause| CommandFault::of_file(path, cause),
        )?;
    }
    Ok(images)
}

/// Opens an image and appends it to the others.
fn open_next<R: Files<File = File>>(
    rt: &R,
    alloc: Global,
    path: &str,
    salt: u32,
    is_raw: bool,
    images: &mut Images,
) -> Result<(), Cause> {
    let (source, mark) = open_image(rt, alloc, path, is_raw)?;
    images.pages = images.pages.saturating_add(u64::from(source.count()));
    if images.pages > u64::from(u32::MAX) {
        return Err(Cause::Image(ImageCause::TooManyPages));
    }
    images.guests.push(Guest { salt, source })?;
    images.marks.push(mark)?;
    Ok(())
}

/// Returns a fault if a file isn't what it was when it was opened.
pub fn check_images<'a, R: Files>(
    rt: &R,
    words: &EstimateWords<'a>,
    images: &Images,
) -> Result<(), CommandFault<'a>> {
    for (path, mark) in words.images.iter().zip(&images.marks) {
        check_unchanged(rt, path, mark).map_err(|cause| CommandFault::of_file(path, cause))?;
    }
    Ok(())
}
