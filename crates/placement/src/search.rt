// The search for a seat of one more block. Depth first: where no seat is open, another block gives way and is placed anew;
// each block is taken out at most once. Where all fails, the blocks taken out are the least tight set.
ghost use Rattle.std.specs.Prelude.{◌≡◌, ℕ, ◌≤◌, None, length, IfSome, MatchResult};
ghost use Rattle.placement.specs.Seats.{list_at, seat_of, Offers, Seated, Unseated, Freed, Barred, Extended, Stuck, AllSit, NotAllSit};

use crate::members::Members;
use crate::seat::{Seat, Seats};
use crate::sitting::Sitting;
use site::set::NumberSet;

/// The seats of up to 17 blocks, and how many blocks a rack takes.
#[derive(Clone, Copy)]
pub(crate) struct Search<'a> {
    pub(crate) seats: &'a [Seats],
    pub(crate) c: u32,
    ghost few: { length seats.now ≤ 17 },
}

impl<'a> Search<'a> {
    // The seats of a block.
    fn list(&self, x: u32) -> &'a [Seat]
        ensures { result.now ≡ list_at self.now.seats.now x }
    {
        match self.seats.get(x as usize) {
            Some(list) => list.as_slice(),
            None => &[],
        }
    }

    // The first of the seats of block x that is open, if one is.
    fn open_seat(&self, sat: &Sitting, x: u32) -> Option<Seat>
        ensures { IfSome result (Offers self.now.c (list_at self.now.seats.now x) sat.now.at) }
    {
        let open = |v: &&Seat| sat.is_open(self.c, **v);
        self.list(x).iter().find(open).copied()
    }

    // Gives block x, the only one with no seat, one of its own: one that is open, or else one for which others move. If none is
    // found, gives the blocks that were seen and those that were taken out, and leaves all as they sit.
    #[cycle(displace_make_room_place)]
    fn place(&self, sat: &mut Sitting, seen: NumberSet, x: u32) -> Result<(), NumberSet>
        ensures { MatchResult result
            (λ _. Seated self.now.c self.now.seats.now sat.old.at x seen sat.new.at)
            (Unseated self.now.c self.now.seats.now sat.old.at x seen sat.new.at) }
    {
        if let Some(v) = self.open_seat(sat, x) {
            sat.put(x, Some(v));
            return Ok(());
        }
        self.make_room(sat, seen, x)
    }

    // The same, but none of the seats is known to be open.
    #[cycle(displace_make_room_place)]
    fn make_room(&self, sat: &mut Sitting, seen: NumberSet, x: u32) -> Result<(), NumberSet>
        ensures { MatchResult result
            (λ _. Seated self.now.c self.now.seats.now sat.old.at x seen sat.new.at)
            (Unseated self.now.c self.now.seats.now sat.old.at x seen sat.new.at) }
    {
        let mut grown = seen;
        for v in self.list(x) {
            match self.displace(sat, grown, x, *v) {
                Ok(()) => return Ok(()),
                Err(more) => grown = more,
            }
        }
        Err(grown)
    }

    // The same for one seat v of x: each block that keeps it from x gives way and is placed anew, if it was not taken out before.
    #[cycle(displace_make_room_place)]
    fn displace(&self, sat: &mut Sitting, seen: NumberSet, x: u32, v: Seat) -> Result<(), NumberSet>
        ensures { MatchResult result
            (λ _. Freed self.now.c self.now.seats.now sat.old.at x v seen sat.new.at)
            (Barred self.now.c self.now.seats.now sat.old.at x v seen sat.new.at) }
    {
        let Some(blockers) = sat.blockers(self.c, v) else {
            sat.put(x, Some(v));
            return Ok(());
        };
        let mut grown = seen;
        for y in Members::of(blockers) {
            if grown.has(y) {
                continue;
            }
            let left = sat.put(y, None);
            let had = sat.put(x, Some(v));
            match self.place(sat, grown.with(y), y) {
                Ok(()) => return Ok(()),
                Err(more) => grown = more,
            }
            sat.put(x, had);
            sat.put(y, left);
        }
        Err(grown)
    }

    /// Gives block x, the only one with no seat, one of its own; or gives the least tight set, and leaves all as they sit.
    pub(crate) fn extend(&self, sat: &mut Sitting, x: u32) -> Result<(), NumberSet>
        ensures { MatchResult result
            (λ _. Extended self.now.c self.now.seats.now sat.old.at x sat.new.at)
            (Stuck self.now.c self.now.seats.now sat.old.at x sat.new.at) }
    {
        self.place(sat, NumberSet::from(0).with(x), x)
    }

    /// Gives each block a seat, where nobody sits yet; or gives the least tight set of the first of them that cannot all sit.
    // The sitting is lent, so that it is not copied.
    pub(crate) fn seat_all(&self, sat: &mut Sitting) -> Result<(), NumberSet>
        ensures { ((k : ℕ) → seat_of sat.old.at k ≡ None) → MatchResult result
            (λ _. AllSit self.now.c self.now.seats.now sat.new.at)
            (NotAllSit self.now.c self.now.seats.now) }
    {
        // A block goes by its number; nothing of the lists is looked at here.
        for m in 0..self.seats.len() as u32 {
            self.extend(sat, m)?;
        }
        Ok(())
    }
}
