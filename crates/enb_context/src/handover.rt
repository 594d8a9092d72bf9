// Handovers at their source (TS 33.401 7.2.8.4, TS 36.300 10.1.2.1).
ghost use Rattle.std.specs.Prelude.{◌≡◌, ◌≤◌, ◌∷◌, [], Some, IfOk, map, ℕ};
ghost use Rattle.lte_events.specs.declared.acts.HoKind.{HoKind as Kind};
ghost use Rattle.lte_events.specs.declared.acts.StationAct.TheVariants.{Start};
ghost use Rattle.key_model.specs.Reading.{octet_reading};
ghost use Rattle.key_model.specs.Derivation.{derived_of};
ghost use Rattle.nh_chain.specs.Station.{opened, way_of};
ghost use Rattle.pdcp_guard.specs.AsKeys.{as_derivations};
ghost use Rattle.lte_machine.specs.StationState.{Via, StationActs};
ghost use Rattle.lte_machine.specs.StationChoice.{start_row, is_misplaced};
ghost use Rattle.lte_machine.specs.StationRecords.{own_prep};
ghost use Rattle.enb_context.specs.Attempt.{attempt_of, x2_attempt, s1_attempt};
ghost use Rattle.enb_context.specs.Step.{answered, seen_plain};
ghost use Rattle.enb_context.specs.Admission.{started_row};

use crate::Station;
use crate::attempt::{Attempt, S1State, X2State};
use crate::context::Context;
use crate::sends::sends;
use annex_a_keys::{Cell, Derived, Star};
use arrayvec::ArrayVec;
use ho_prep::{By, Prep};
use lte_events::{ActorOut, Address, Answer, HoKind, KeyNote};
use nh_chain::{Spent, StationKey};
use pdcp_guard::AsKeys;
use rec_base::Way;
use s1_handover::S1Open;
use s1x2_rec::CoreRecord;
use x2_handover::X2Open;

impl Station {
    // A handover of this kind to a cell begins.
    pub(crate) fn start(&mut self, kind: HoKind, cell: &Cell, out: &mut ActorOut)
        ensures { (self.new, out.new) ≡ answered self.old (StationActs (Start kind cell.now)) }
    {
        match kind {
            HoKind::X2 => self.start_x2(cell, out),
            HoKind::S1 => self.start_s1(cell, out),
            HoKind::Intra => self.start_within(cell, out),
        }
    }

    // The station of the cell, where a handover of this kind may go there.
    fn target(&self, kind: HoKind, cell: &Cell) -> Result<u8, Answer>
        ensures row { start_row (seen_plain self.now) kind cell.now (seen_plain self.now).context ≡ started_row (seen_plain self.now) kind cell.now result }
        ensures station { IfOk result (λ station. station ≤ 7) }
    {
        let Some(context) = &self.context else {
            return Err(Answer::NoUe);
        };
        if context.starting {
            return Err(Answer::NotActive);
        }
        let Some(target) = self.cells.station_of(cell) else {
            return Err(Answer::UnknownCell);
        };
        if is_misplaced(kind, target == self.id) {
            return Err(Answer::UnknownCell);
        }
        if let Some(attempt) = &context.attempt {
            return Err(Answer::AttemptOpen(attempt.number()));
        }
        Ok(target)
    }

    // Over X2: KeNB* goes to the target (TS 33.401 7.2.8.4.2).
    fn start_x2(&mut self, cell: &Cell, out: &mut ActorOut)
        ensures { (self.new, out.new) ≡ answered self.old (StationActs (Start Kind.X2 cell.now)) }
    {
        let target = match self.target(HoKind::X2, cell) {
            Ok(target) => target,
            Err(answer) => return out.only(answer),
        };
        let Some(number) = self.number(1) else {
            return out.only(Answer::NumberSpent);
        };
        let Some(context) = &mut self.context else {
            return out.only(Answer::NoUe);
        };
        let (star, spent, ncc, made) = context.open(cell);
        let request = CoreRecord::X2Request {
            conn: context.conn,
            source: self.id,
            attempt: number,
            cell: *cell,
            caps: context.caps,
            ncc,
            star,
        };
        let note = started(&star, ncc, &spent);
        let attempt = X2Open::new(number, target, *cell, star, ncc, spent);
        context.begin(Attempt::OverX2(X2State::Open(attempt)));
        self.next = u64::from(number) + 1;
        sends(Address::StationX2(target), &request, out);
        out.derived.push(made);
        out.note = Some(note);
    }

    // Over S1: the core gives the target its pair, and the stored pair stays (TS 33.401 7.2.8.4.3).
    fn start_s1(&mut self, cell: &Cell, out: &mut ActorOut)
        ensures { (self.new, out.new) ≡ answered self.old (StationActs (Start Kind.S1 cell.now)) }
    {
        let target = match self.target(HoKind::S1, cell) {
            Ok(target) => target,
            Err(answer) => return out.only(answer),
        };
        let Some(number) = self.number(1) else {
            return out.only(Answer::NumberSpent);
        };
        let Some(context) = &mut self.context else {
            return out.only(Answer::NoUe);
        };
        let required = CoreRecord::HandoverRequired {
            conn: context.conn,
            station: self.id,
            attempt: number,
            cell: *cell,
        };
        let attempt = S1Open::new(number, target, *cell);
        context.begin(Attempt::OverS1(S1State::Open(attempt)));
        self.next = u64::from(number) + 1;
        sends(Address::CoreS1, &required, out)
    }

    // Within the station: the preparation is added, and the attempt is ready at once (TS 33.401 7.2.8.4.1).
    fn start_within(&mut self, cell: &Cell, out: &mut ActorOut)
        ensures { (self.new, out.new) ≡ answered self.old (StationActs (Start Kind.Intra cell.now)) }
    {
        if let Err(answer) = self.target(HoKind::Intra, cell) {
            return out.only(answer);
        }
        if self.is_full() {
            return out.only(Answer::PrepFull);
        }
        let Some(number) = self.number(2) else {
            return out.only(Answer::NumberSpent);
        };
        let id = self.id;
        let Some(context) = &mut self.context else {
            return out.only(Answer::NoUe);
        };
        let air = number + 1;
        let (star, spent, ncc, made) = context.open(cell);
        let note = started(&star, ncc, &spent);
        let (prep, rest) = context.own_prep(context.conn, id, number, air, cell, star, ncc);
        let attempt = X2Open::new(number, id, *cell, star, ncc, spent).acked(context.algs, air);
        context.begin(Attempt::Within(X2State::Ready(attempt)));
        self.next = u64::from(air) + 1;
        self.add_prep(prep);
        out.only(Answer::Done);
        out.derived.push(made);
        out.derived.append(rest.as_slice());
        out.note = Some(note);
    }
}

// Where a handover may not go: over X2 and S1 to a cell of the station itself, and within it to any other.
fn is_misplaced(kind: HoKind, own: bool) -> bool
    ensures { result ≡ is_misplaced kind own }
{
    match kind {
        HoKind::Intra => !own,
        HoKind::X2 | HoKind::S1 => own,
    }
}

// What is told of a KeNB* that a handover began with: vertical where a pair was used for it.
fn started(star: &Star, ncc: u8, spent: &Option<Spent>) -> KeyNote
    ensures { result ≡ record { ncc = ncc; way = way_of spent.now; key = star.now } }
{
    let way = match spent {
        Some(_) => Way::Vertical,
        None => Way::Horizontal,
    };
    KeyNote {
        ncc,
        way,
        key: star.octets(),
    }
}

impl Context {
    // A handover to a cell begins: KeNB*, the pair that was used for it, its NCC and its derivation.
    fn open(&mut self, cell: &Cell) -> (Star, Option<Spent>, u8, Derived)
        ensures new { self.new ≡ record self.old { key = (opened octet_reading self.old.key cell.now).key } }
        ensures star { record { key = result.0; number = result.2 } ≡ (opened octet_reading self.old.key cell.now).star }
        ensures spent { result.1 ≡ self.old.key.pair }
        ensures derived { result.3 ≡ derived_of (opened octet_reading self.old.key cell.now).made }
        ensures in_range { result.2 ≤ 7 }
    {
        self.key.open(cell)
    }

    // The attempt of the context is this.
    pub(crate) fn begin(&mut self, attempt: Attempt)
        ensures { self.new ≡ record self.old { attempt = Some (attempt_of attempt) } }
    {
        self.attempt = Some(attempt);
    }

    // A preparation within the station for a phone that comes at an air address with a KeNB*, and the
    // derivations of its keys; algorithms, capabilities and the X2 handover that the phone came by stay.
    pub(crate) fn own_prep(
        &self,
        conn: u32,
        id: u8,
        number: u32,
        air: u32,
        cell: &Cell,
        star: Star,
        ncc: u8,
    ) -> (Prep, ArrayVec<Derived, 3>)
        requires conn { 1 ≤ conn }
        requires id { id ≤ 7 }
        requires number { 1 ≤ number }
        requires air { 1 ≤ air }
        requires ncc { ncc ≤ 7 }
        ensures prep { result.0 ≡ own_prep octet_reading conn id number air cell.now self.now (record { key = star; number = ncc }) }
        ensures derived { result.1.items ≡ map derived_of (as_derivations octet_reading star self.now.algs) }
    {
        let (keys, made) = AsKeys::derive(&star.install(), self.algs);
        let came = match self.origin {
            Some(origin) => Some((origin.source, origin.attempt)),
            None => None,
        };
        let prep = Prep {
            conn,
            source: id,
            attempt: number,
            by: By::Intra(came),
            cell: *cell,
            air,
            key: StationKey::given(star, ncc),
            algs: self.algs,
            keys,
            caps: self.caps,
        };
        (prep, made)
    }
}

impl X2State {
    // The attempt's number.
    pub(crate) fn number(&self) -> u32
        ensures { (via : Via) → result ≡ (x2_attempt via self.now).number }
    {
        match self {
            X2State::Open(open) => open.number(),
            X2State::Ready(ready) => ready.number(),
            X2State::Commanded(commanded) => commanded.number(),
        }
    }
}

impl S1State {
    // The attempt's number.
    pub(crate) fn number(&self) -> u32
        ensures { result ≡ (s1_attempt self.now).number }
    {
        match self {
            S1State::Open(open) => open.number(),
            S1State::Ready(ready) => ready.number(),
            S1State::Commanded(commanded) => commanded.number(),
        }
    }
}

impl Attempt {
    // The attempt's number.
    pub(crate) fn number(&self) -> u32
        ensures { result ≡ (attempt_of self.now).number }
    {
        match self {
            Attempt::OverX2(state) | Attempt::Within(state) => state.number(),
            Attempt::OverS1(state) => state.number(),
            Attempt::Renewing(renewal) => renewal.number,
        }
    }
}
