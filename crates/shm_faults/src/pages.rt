//! The pages that the program shows on standard error.

/// The commands, a line each.
pub const COMMANDS: &str = "usage:
  cxlshm replay < TRACE                        replay a trace, and write the report
  cxlshm replay --image < TRACE > IMAGE        replay a trace, and write the image of the closed pool
  cxlshm replay --print < TRACE                write a trace as it is printed
  cxlshm run < TRACE                           run a trace by clients on threads, and write the report
  cxlshm run --image < TRACE > IMAGE           the same, and write the image of the closed pool
  cxlshm run --medics K < TRACE                the same as `run`, and K threads recover who dies, 1 to 4
  cxlshm poll Q < TRACE                        run a trace by clients that are polled, Q turns in each poll
  cxlshm poll Q --limit P < TRACE              the same, and give up after P polls what isn't done
  cxlshm audit < IMAGE                         write the verdict on an image
  cxlshm migrate < IMAGE > IMAGE2              write the image in format 2 of the same pool
  cxlshm make START SIZE                       draw a trace, replay it, and write the summary
  cxlshm make START SIZE --print > TRACE       draw a trace, and write it
  cxlshm tree < SCRIPT                         run a script for versions of an ordered map";

/// The statuses.
pub const STATUSES: &str =
    "Input comes on standard input, and what is written goes to standard output.
status: 0 done, 2 words not accepted, 3 input refused, 4 a read failed, 5 a write failed, 6 no memory
docs/TRACE.md has traces, docs/IMAGE.md images, docs/VERSIONS.md scripts.";

/// What this program is.
pub const VERSION: &str =
    "cxlshm: traces of `pool` and `pool2`, images `CXLSHM01` and `CXLSHM02`, scripts of `tree`; it has no other version number";
