//! The words of tags and redo records, which the format of a pool decides.

ghost use Rattle.std.specs.Prelude.{◌≡◌};

use crate::geometry::Geometry;
use crate::redo::{Pair2, Redo};
use crate::tag::Tag;

impl Geometry {
    ghost use Rattle.shm_words.specs.Layout.{place_limit};
    ghost use Rattle.shm_words.specs.Tags.{TagFits, tag_word, tag_of};
    ghost use Rattle.shm_words.specs.Redos.{first_word, second_word, redo_of};

    /// The tag that a word is; `None` exactly where no tag in range packs to the word.
    pub fn read_tag(self, word: u64) -> Option<Tag>
        ensures { result ≡ tag_of self.wide word }
    {
        if self.wide {
            Tag::unpack_wide(word)
        } else {
            Tag::unpack(word)
        }
    }

    /// The word of a tag.
    pub fn write_tag(self, tag: Tag) -> u64
        requires { TagFits self.wide tag }
        ensures { result ≡ tag_word self.wide tag }
    {
        if self.wide {
            tag.pack_wide()
        } else {
            tag.pack()
        }
    }

    /// The redo record that the words are; in format 1 it has no second word, and `second` counts for nothing.
    pub fn read_redo(self, first: u64, second: u64) -> Option<Redo>
        ensures { result ≡ redo_of self.wide first second }
    {
        if self.wide {
            Redo::unpack_wide(Pair2 { first, second })
        } else {
            Redo::unpack(first)
        }
    }

    /// The addresses of the pool are below this number: so many bits its redo records and tags have for one.
    #[inline(always)]
    pub fn limit(self) -> u32
        ensures { result ≡ place_limit self.wide }
    {
        if self.wide { 1 << 24 } else { 1 << 20 }
    }

    /// The words of a redo record, whose places are brought into range; in format 1 the second one is 0.
    pub fn write_redo(self, redo: Redo) -> Pair2
        ensures first { result.first ≡ first_word self.wide redo }
        ensures second { result.second ≡ second_word self.wide redo }
    {
        let limit = self.limit();
        let redo = match redo {
            Redo::Idle => Redo::Idle,
            Redo::Up { slot, block } => Redo::Up {
                slot: slot % limit,
                block: block % limit,
            },
            Redo::Down { slot, block } => Redo::Down {
                slot: slot % limit,
                block: block % limit,
            },
            Redo::Change {
                odd,
                slot,
                before,
                after,
            } => Redo::Change {
                odd,
                slot: slot % limit,
                before: before % limit,
                after: after % limit,
            },
        };
        if self.wide {
            redo.pack_wide()
        } else {
            Pair2 {
                first: redo.pack(),
                second: 0,
            }
        }
    }
}
