//! Two images, of which the second one stands behind the first one.

ghost use Rattle.std.specs.Prelude.{◌≡◌, ◌≤◌, length};
ghost use Rattle.shm_view.specs.Changes.{first_length, first_of, second_of};

use shm_audit::{ImageFault, open_image};

/// The first and the second image. The first one is as long as its sizes say. Where these are refused, or where fewer bytes are there, it is all that there is,
/// and the second one is empty.
pub fn split_images(images: &[u8]) -> (&[u8], &[u8])
    ensures first { result.0.now ≡ first_of images.now }
    ensures second { result.1.now ≡ second_of images.now }
{
    images.split_at(first_length(images))
}

// how long the first one is
fn first_length(images: &[u8]) -> usize
    ensures is { result ≡ first_length images.now }
    ensures most { result ≤ length images.now }
{
    match open_image(images) {
        Ok(_) => images.len(),
        Err(ImageFault::Length { want, .. }) => images.len().min(want as usize),
        Err(
            ImageFault::Short { .. }
            | ImageFault::Magic { .. }
            | ImageFault::Geometry { .. }
            | ImageFault::BadPage { .. }
            | ImageFault::BadHeader { .. }
            | ImageFault::BadTag { .. }
            | ImageFault::BadRef { .. },
        ) => images.len(),
    }
}
