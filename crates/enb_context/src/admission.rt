// Whether a record that asks for a context or a preparation is taken.
ghost use Rattle.std.specs.Prelude.{◌≡◌, ◌≤◌, ◌<◌, ◌+◌, ◌∷◌, ◌++◌, [], IfOk, IfNone, IfSome, true, false, length, slice_set};
ghost use Rattle.ho_prep.specs.Prep.{drop_below, has_attempt, without};
ghost use Rattle.lte_machine.specs.StationChoice.{runs_out, is_own, is_full, initial_row, admitted_row};
ghost use Rattle.lte_machine.specs.StationRows.{Admitted, RecordRow};
ghost use Rattle.enb_context.specs.Step.{seen_plain};
ghost use Rattle.enb_context.specs.Admission.{given_row, taken_row};

use crate::Station;
use alg_choice::{Algs, Caps, choose};
use annex_a_keys::Cell;
use ho_prep::Prep;
use lte_events::Answer;

impl Station {
    // The next number, where one or two are left.
    pub(crate) fn number(&self, draws: u64) -> Option<u32>
        requires one { 1 ≤ draws }
        requires two { draws ≤ 2 }
        ensures spent { IfNone result (runs_out draws self.now.next ≡ true) }
        ensures left { IfSome result (λ number. runs_out draws self.now.next ≡ false) }
        ensures value { IfSome result (λ number. number ≡ self.now.next) }
        ensures in_range { IfSome result (λ number. 1 ≤ number) }
        ensures room { IfSome result (λ number. number + draws ≤ 4294967296) }
    {
        if self.next + draws > 1 << 32 {
            return None;
        }
        Some(self.next as u32)
    }

    // Whether a cell is one of the station's own.
    pub(crate) fn is_own(&self, cell: &Cell) -> bool
        ensures { result ≡ is_own (seen_plain self.now) cell.now }
    {
        match self.cells.station_of(cell) {
            Some(station) => station == self.id,
            None => false,
        }
    }

    // Whether as many preparations stand as may.
    #[tactic(auto, using(crate::proofs::PrepFacts::length_map_preps))]
    pub(crate) fn is_full(&self) -> bool
        ensures value { result ≡ is_full (seen_plain self.now) }
        ensures room { result ≡ false → length self.now.preps < 8 }
    {
        self.preps.len() >= 8
    }

    // The algorithms and the air address of a context that is set up (TS 33.401 7.2.4.2.1).
    pub(crate) fn admit_context(
        &self,
        conn: u32,
        cell: &Cell,
        caps: &Caps,
    ) -> Result<(Algs, u32), Answer>
        ensures row { initial_row (seen_plain self.now) conn cell.now caps.now ≡ given_row conn cell.now caps.now result }
        ensures air { IfOk result (λ taken. taken.1 ≡ self.now.next) }
        ensures in_range { IfOk result (λ taken. 1 ≤ taken.1) }
        ensures conn { IfOk result (λ taken. self.now.last < conn) }
    {
        if conn <= self.last {
            return Err(Answer::OldConnection(self.last, conn));
        }
        if !self.is_own(cell) {
            return Err(Answer::UnknownCell);
        }
        let Ok(algs) = choose(&self.priority, caps) else {
            return Err(Answer::NoAlgorithm);
        };
        let Some(air) = self.number(1) else {
            return Err(Answer::NumberSpent);
        };
        Ok((algs, air))
    }

    // The algorithms and the air address of a handover request (TS 33.401 7.2.4.2.2 and 7.2.4.2.3).
    #[tactic(auto, using(crate::proofs::PrepFacts::length_map_preps))]
    pub(crate) fn admit(
        &self,
        conn: u32,
        source: u8,
        attempt: u32,
        cell: &Cell,
        caps: &Caps,
    ) -> Result<(Algs, u32), Answer>
        requires { source ≤ 7 }
        ensures row { (row : Admitted → RecordRow) →
            admitted_row (seen_plain self.now) conn (record { source = source; attempt = attempt }) cell.now caps.now row
            ≡ taken_row row conn (record { source = source; attempt = attempt }) cell.now caps.now result }
        ensures air { IfOk result (λ taken. taken.1 ≡ self.now.next) }
        ensures in_range { IfOk result (λ taken. 1 ≤ taken.1) }
        ensures conn { IfOk result (λ taken. self.now.last ≤ conn) }
        ensures room { IfOk result (λ taken. conn ≡ self.now.last → length self.now.preps < 8) }
    {
        if conn < self.last {
            return Err(Answer::OldConnection(self.last, conn));
        }
        if !self.is_own(cell) {
            return Err(Answer::UnknownCell);
        }
        let seen = self.seen[usize::from(source)];
        if attempt <= seen {
            return Err(Answer::Repeated(seen, attempt));
        }
        let full = self.is_full();
        if conn == self.last && full {
            return Err(Answer::PrepFull);
        }
        let Ok(algs) = choose(&self.priority, caps) else {
            return Err(Answer::NoAlgorithm);
        };
        let Some(air) = self.number(1) else {
            return Err(Answer::NumberSpent);
        };
        Ok((algs, air))
    }

    // Takes a preparation by a request, and drops those of older connections.
    #[tactic(auto, using(crate::proofs::PrepFacts::none_above_drop, crate::proofs::PrepFacts::none_above_push, crate::proofs::PrepFacts::drop_below_room))]
    pub(crate) fn prepare(&mut self, prep: Prep)
        requires conn { self.old.last ≤ prep.conn }
        requires source { prep.source ≤ 7 }
        requires room { prep.conn ≡ self.old.last → length self.old.preps < 8 }
        ensures { self.new ≡ record self.old {
          next = prep.air + 1;
          last = prep.conn;
          seen = slice_set self.old.seen prep.source prep.attempt;
          preps = drop_below prep.conn self.old.preps ++ prep ∷ [];
        } }
    {
        let source = usize::from(prep.source);
        self.next = u64::from(prep.air) + 1;
        self.last = prep.conn;
        self.seen[source] = prep.attempt;
        self.preps.drop_below(prep.conn);
        let _ = self.preps.add(prep);
    }

    // Drops what stands for an attempt of a source, and answers whether something did.
    pub(crate) fn remove_prep(&mut self, source: u8, attempt: u32) -> bool
        ensures stood { result ≡ has_attempt source attempt self.old.preps }
        ensures others { self.new ≡ record self.old { preps = without source attempt self.old.preps } }
    {
        self.preps.remove(source, attempt)
    }

    // Adds a preparation within the station, for which there is room.
    pub(crate) fn add_prep(&mut self, prep: Prep)
        requires conn { prep.conn ≤ self.old.last }
        requires room { length self.old.preps < 8 }
        ensures { self.new ≡ record self.old { preps = self.old.preps ++ prep ∷ [] } }
    {
        let _ = self.preps.add(prep);
    }
}
