//! Access to the extents of an expression.
ghost use Rattle.std.specs.Prelude.{◌≡◌, All};
ghost use Rattle.wu_cursor.specs.Access.{first_starting, first_ending, last_ending, last_starting};
ghost use Rattle.wu_gcl.specs.Regions.{region_of};
ghost use Rattle.wu_solve.specs.Addresses.{AreLists};
ghost use Rattle.wu_solve.specs.Solving.{frames_hits, IsFrame};
ghost use Rattle.wu_base.specs.Ranges.{AreApart};

use crate::frames::{first_over, last_over};
use wu_base::{Extent, Range, TermList};
use wu_gcl::Expr;

/// The extents that an expression means over frames, to be asked for one at a time from any address
/// on. No list of them is made, and no call takes memory.
///
/// A call goes from frame to frame, from the one that `k` lies in, until one has its extent. In a
/// frame it looks each word, tag or window up by a binary search; a phrase leaps from one place that
/// its words may take to the next. `+`, `^` and `..` ask each operand once for where an extent ends
/// and once for where one starts, however deep they stand in one another. A containment goes over the
/// extents of its left operand, one by one until it keeps one, and at each asks the right operand
/// once, or twice for `<` and `/<`. What it answers is remembered until the call leaves the frame, so
/// that containments within one another don't go over the same extents again and again. Between calls
/// nothing is remembered.
#[derive(Clone, Copy)]
pub struct Cursor<'a> {
    expr: &'a Expr,
    frames: &'a [Range],
    lists: &'a [TermList],
}

impl<'a> Cursor<'a> {
    /// A cursor over the extents that `solve` lists. The calls require what `solve` does, and that each
    /// frame ends before the next one starts: then starts and ends both ascend strictly in the list.
    pub fn new(expr: &'a Expr, frames: &'a [Range], lists: &'a [TermList]) -> Cursor<'a>
        ensures expr { result.expr.now ≡ expr.now }
        ensures frames { result.frames.now ≡ frames.now }
        ensures lists { result.lists.now ≡ lists.now }
    {
        Cursor {
            expr,
            frames,
            lists,
        }
    }

    /// The first extent that starts at `k` or after it. None exactly where there is none.
    pub fn tau(&self, k: u64) -> Option<Extent>
        requires lists { AreLists self.now.lists.now }
        requires frames { All IsFrame self.now.frames.now }
        requires apart { AreApart self.now.frames.now }
        ensures { result ≡ first_starting k (frames_hits (region_of self.now.expr.now) self.now.lists.now self.now.frames.now) }
    {
        first_over(self.expr, self.lists, self.frames, k)
    }

    /// The first extent that ends at `k` or after it. None exactly where there is none.
    pub fn rho(&self, k: u64) -> Option<Extent>
        requires lists { AreLists self.now.lists.now }
        requires frames { All IsFrame self.now.frames.now }
        requires apart { AreApart self.now.frames.now }
        ensures { result ≡ first_ending k (frames_hits (region_of self.now.expr.now) self.now.lists.now self.now.frames.now) }
    {
        if k == 0 {
            return self.tau(0);
        }
        match self.tau_back(k - 1) {
            Some(before) => self.tau(before.start + 1),
            None => self.tau(0),
        }
    }

    /// The last extent that ends at `k` or before it. None exactly where there is none.
    pub fn tau_back(&self, k: u64) -> Option<Extent>
        requires lists { AreLists self.now.lists.now }
        requires frames { All IsFrame self.now.frames.now }
        requires apart { AreApart self.now.frames.now }
        ensures { result ≡ last_ending k (frames_hits (region_of self.now.expr.now) self.now.lists.now self.now.frames.now) }
    {
        last_over(self.expr, self.lists, self.frames, k)
    }

    /// The last extent that starts at `k` or before it. None exactly where there is none.
    pub fn rho_back(&self, k: u64) -> Option<Extent>
        requires lists { AreLists self.now.lists.now }
        requires frames { All IsFrame self.now.frames.now }
        requires apart { AreApart self.now.frames.now }
        ensures { result ≡ last_starting k (frames_hits (region_of self.now.expr.now) self.now.lists.now self.now.frames.now) }
    {
        if k == u64::MAX {
            return self.tau_back(u64::MAX);
        }
        match self.tau(k + 1) {
            Some(behind) => self.tau_back(behind.end - 1),
            None => self.tau_back(u64::MAX),
        }
    }
}
