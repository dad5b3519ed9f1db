//! A new store, and the lanes of its CPUs.
ghost use Rattle.std.specs.Prelude.{◌≡◌, ◌<◌, ◌^◌, [], ◌∷◌, IfOk, MatchOption};
ghost use Rattle.hop_words.specs.Opens.{lanes_from};

use crate::known::View;
use crate::lane::Lane;
use crate::making::first_words;
use crate::table::HopTable;
use atomic_table::{Seat, Split, Table};
use hop_layout::{About, Index};
use std::alloc::{AllocError, Global};
use std::marker::Model;

// The first CPU of a seat goes to a new one.
pub(crate) struct Deal;

impl Split<View> for Deal {
    ghost use Rattle.hop_words.specs.Private.Seats.{dealer, dealt};

    ghost left = { dealer };

    ghost right = { dealt };
}

/// The lanes of a store that aren't dealt yet, the lowest CPU first.
#[derive(Drop)]
pub struct Lanes {
    seat: Seat<(), View>,
    next: u8,
    left: u8,
}

impl Model for Lanes {
    ghost use Rattle.hop_words.specs.Dealing.{Dealing};
    ghost use Rattle.hop_words.specs.Private.Dealing.{dealing, IsDealing};

    ghost Value = { Dealing };

    ghost view = { dealing };

    ghost invariant = { IsDealing };
}

impl HopTable {
    /// A store of which all elements are free, with no key and no CPU in a run.
    pub fn new(alloc: Global, about: About) -> Result<(HopTable, Lanes), AllocError>
        requires version { about.version < 2 ^ 56 }
        ensures about { IfOk result (λ r. r.0.about ≡ about) }
        ensures lanes { IfOk result (λ r. (r.1.table ≡ r.0.id)
            × (r.1.lanes ≡ lanes_from about 0 about.shape.cpus)) }
    {
        let left = about.shape.cpus();
        let index = Index::new(alloc, about)?;
        let words = first_words(alloc, &index)?;
        let (table, seat) = Table::of_words(alloc, &words, index.about())?;
        let lanes = Lanes {
            seat,
            next: 0,
            left,
        };
        Ok((HopTable { table, index }, lanes))
    }
}

impl Lanes {
    /// The lane of the next CPU.
    pub fn deal(&mut self, table: &HopTable) -> Option<Lane>
        requires { self.old.table ≡ table.now.id }
        ensures table { self.new.table ≡ self.old.table }
        ensures dealt { MatchOption result (self.old.lanes
            ≡ []) (λ l. (self.old.lanes ≡ l.known ∷ self.new.lanes) × (l.table ≡ self.old.table)) }
    {
        if self.left == 0 {
            return None;
        }
        let _cpus = table.about().shape.cpus();
        let seat = table.table.shared.split_seat::<Deal>(&mut self.seat);
        let cpu = self.next;
        self.next += 1;
        self.left -= 1;
        Some(Lane::seated(cpu, seat))
    }
}
