//! The image of a pool: its sizes and its words as bytes, and what an image announces.

ghost use Rattle.std.specs.Prelude.{◌≡◌, ℕ, ◌++◌, ◌^◌, ◌<◌, ◌||◌, true, false, List, length, slice_index, IfOk, IfErr, OnOk, None, Some};
ghost use Rattle.std.specs.Int.{w64, to_le_bytes};
ghost use Rattle.shm_words.specs.{declared.geometry.Geometry.Geometry as AGeometry, Layout.{GeometryFits, total_of}};
ghost use Rattle.shm_audit.specs.Images.{image_of, geometry_in, marks, numbers, words_in};
ghost use Rattle.shm_audit.specs.{Faults.{frame_fault_of, is_size}, Frames.Announces};
ghost use Rattle.shm_audit.specs.declared.fault.ImageFault.TheVariants as fault;

use crate::fault::ImageFault;
use crate::words::word;
use shm_script::push_text;
use shm_words::Geometry;
use std::alloc::{AllocError, Global};

/// `CXLSHM01`, which an image of format 1 begins with, as a number with the lowest byte first.
const MARK: u64 = 0x3130_4d48_534c_5843;

/// `CXLSHM02`, which one of format 2 begins with.
const WIDE_MARK: u64 = 0x3230_4d48_534c_5843;

/// How many bytes stand before the words of an image.
const FRAME: usize = 24;

/// The image of a pool of these sizes with these words: `CXLSHM01`, or `CXLSHM02` for a pool of format 2, the number of clients, the
/// number of segments, and the words, each as 8 bytes with the lowest first.
///
/// It takes as much memory as it is long: 24 bytes, and 8 for each word.
pub fn write_image(alloc: Global, geometry: Geometry, words: &[u64]) -> Result<Vec<u8>, AllocError>
    requires fits { GeometryFits geometry }
    requires whole { length words.now ≡ total_of geometry }
    ensures { IfOk result (λ v. v.items ≡ image_of geometry words.now) }
{
    let mut image = Vec::with_capacity(alloc, FRAME + 8 * words.len())?;
    let mark = if geometry.is_wide() {
        "CXLSHM02"
    } else {
        "CXLSHM01"
    };
    push_text(&mut image, mark)?;
    push_word(&mut image, u64::from(geometry.clients()))?;
    push_word(&mut image, u64::from(geometry.segments()))?;
    for word in words {
        push_word(&mut image, *word)?;
    }
    Ok(image)
}

/// Appends the 8 bytes of a word, the lowest first.
pub fn push_word(image: &mut Vec<u8>, word: u64) -> Result<(), AllocError>
    ensures { OnOk result (image.new.items ≡ image.old.items ++ to_le_bytes w64 word) }
{
    image.extend_from_slice(&word.to_le_bytes())
}

/// The sizes and the format that an image announces, and its words as runs of 8 bytes with the lowest first, in order of address.
///
/// It refuses the first of these: an image of fewer than 24 bytes; one that begins with the mark of no format; one with sizes that no pool
/// of its format has, which are 1 to 16 clients, and 1 to 256 segments or in format 2 1 to 8,000; and one that isn't as long as its sizes
/// say. The words themselves aren't looked at, and no memory is taken.
pub fn open_image(image: &[u8]) -> Result<(Geometry, &[[u8; 8]]), ImageFault>
    ensures none { IfOk result (λ r. frame_fault_of image.now ≡ None) }
    ensures sizes { IfOk result (λ r. r.0 ≡ geometry_in image.now) }
    ensures fits { IfOk result (λ r. GeometryFits r.0) }
    ensures words { IfOk result (λ r. numbers r.1.now ≡ words_in image.now) }
    ensures whole { IfOk result (λ r. length r.1.now ≡ total_of r.0) }
    ensures fault { IfErr result (λ f. frame_fault_of image.now ≡ Some f) }
{
    let len = image.len() as u64;
    if image.len() < FRAME {
        return Err(ImageFault::Short { len });
    }
    let (runs, _) = image.as_chunks::<8>();
    let wide = read_mark(word(runs, 0))?;
    let geometry = read_sizes(wide, word(runs, 1), word(runs, 2))?;
    let want = FRAME as u64 + 8 * u64::from(geometry.total());
    if len != want {
        return Err(ImageFault::Length { len, want });
    }
    Ok((geometry, &runs[3..]))
}

/// The sizes and the format that the first 24 bytes of an image announce.
///
/// It refuses the first of these: the mark of no format; and sizes that no pool of its format has.
pub fn read_frame(frame: &[u8]) -> Result<Geometry, ImageFault>
    requires { length frame.now ≡ 24 }
    ensures fits { IfOk result (λ g. GeometryFits g) }
    ensures sizes { IfOk result (λ g. (rest : List ℕ) → Announces g (frame.now ++ rest)) }
    ensures fault { IfErr result (λ f. (rest : List ℕ) → frame_fault_of (frame.now ++ rest) ≡ Some f) }
{
    let (runs, _) = frame.as_chunks::<8>();
    let wide = read_mark(word(runs, 0))?;
    read_sizes(wide, word(runs, 1), word(runs, 2))
}

// whether this is the mark of format 2 and not of format 1, where it is one of them
fn read_mark(seen: u64) -> Result<bool, ImageFault>
    ensures format { IfOk result (λ wide. (marks false seen || marks true seen) ≡ true × (wide ≡ marks true seen)) }
    ensures fault { IfErr result (λ f. ((marks false seen || marks true seen) ≡ false) × (f ≡ fault.Magic seen)) }
{
    match seen {
        MARK => Ok(false),
        WIDE_MARK => Ok(true),
        _ => Err(ImageFault::Magic { seen }),
    }
}

// the sizes of a pool of format 2 or of format 1, where one may have them
fn read_sizes(wide: bool, clients: u64, segments: u64) -> Result<Geometry, ImageFault>
    ensures sizes { IfOk result (λ g. (g.clients ≡ clients) × (g.segments ≡ segments) × (g.wide ≡ wide)) }
    ensures fits { IfOk result (λ g. GeometryFits g) }
    ensures fault { IfErr result (λ f. (is_size (record { clients = clients; segments = segments; wide = wide }) ≡ false) × (f ≡ fault.Geometry clients segments)) }
{
    let refused = ImageFault::Geometry { clients, segments };
    let (Ok(few), Ok(some)) = (u8::try_from(clients), u16::try_from(segments)) else {
        return Err(refused);
    };
    let made = if wide {
        Geometry::wide(few, some)
    } else {
        Geometry::new(few, some)
    };
    made.map_err(|_| refused)
}

/// What `write_image` makes of a pool has no fault in its frame, and its sizes, its format and its words are read in it.
pub fn image_reads_back()
    ensures frame { (g : AGeometry) (ws : List ℕ) → GeometryFits g → length ws ≡ total_of g → ((i : ℕ) → slice_index ws i < 2 ^ 64) → frame_fault_of (image_of g ws) ≡ None }
    ensures sizes { (g : AGeometry) (ws : List ℕ) → GeometryFits g → ((i : ℕ) → slice_index ws i < 2 ^ 64) → geometry_in (image_of g ws) ≡ g }
    ensures words { (g : AGeometry) (ws : List ℕ) → GeometryFits g → ((i : ℕ) → slice_index ws i < 2 ^ 64) → words_in (image_of g ws) ≡ ws }
{}
