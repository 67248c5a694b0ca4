//! The points before a search, and those at which one of a segment's pages and one of a page's headers begin.

ghost use Rattle.std.specs.Prelude.{◌≡◌};
ghost use Rattle.shm_alloc.specs.Alloc.Control as control;

use crate::alloc::AllocFault;
use crate::point::{AllocNext, AllocPoint, Goal, Search};

/// Where it goes by the own era.
#[inline(always)]
pub(crate) fn era_next(seen: u64) -> AllocNext
    ensures { result ≡ control.era_next seen }
{
    if seen > (1 << 47) - 3 {
        AllocNext::Answer(Err(AllocFault::EraSpent { era: seen }))
    } else {
        AllocNext::Point(AllocPoint::Root { era: seen, root: 0 })
    }
}

/// Where it goes by a root.
#[inline(always)]
pub(crate) fn root_next(era: u64, root: u8, seen: u64) -> AllocNext
    ensures { result ≡ control.root_next era root seen }
{
    if seen == 0 {
        AllocNext::Point(AllocPoint::Segment {
            goal: Goal { era, root },
            search: Search {
                segment: 0,
                taken: 0,
                used: 0,
            },
        })
    } else if root < 15 {
        let root = root + 1;
        AllocNext::Point(AllocPoint::Root { era, root })
    } else {
        AllocNext::Answer(Err(AllocFault::RootsFull))
    }
}

/// The first page of an own segment.
#[inline(always)]
pub(crate) fn first_page(goal: Goal, search: Search) -> AllocNext
    ensures { result ≡ control.first_page goal search }
{
    AllocNext::Point(AllocPoint::Page {
        goal,
        search,
        page: 0,
    })
}

/// The first header of a page of the class.
#[inline(always)]
pub(crate) fn first_header(goal: Goal, search: Search, page: u8) -> AllocNext
    ensures { result ≡ control.first_header goal search page }
{
    AllocNext::Point(AllocPoint::Header {
        goal,
        search,
        page,
        index: 0,
    })
}
