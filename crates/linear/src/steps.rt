// The linear steps: as methods of one struct a scale, from a valid tick to the nearest tick of the
// neighbour, and from epoch to epoch. A tick leaves its struct only inside a step. The step between
// TT and TDB needs a table and stands elsewhere.
ghost use Rattle.std.specs.Prelude.{◌≡◌, ◌≤◌, nat_abs};
ghost use Rattle.scales.specs.Tick.{furthest};
ghost use Rattle.scales.specs.Linear.{nearest_tick, gps_to_tai, tai_to_tt, tcg_to_tt, tcb_to_tdb};
ghost use Rattle.scales.specs.Linear.{inverse};
ghost use Rattle.scales.specs.Rows.{line_row, turned, line_step};

use crate::drift::{TCB_GAINS, TCG_GAINS, TDB_LOSES, TT_LOSES};
use scales::answer::{Epoch, Outside, keep};
use scales::path::Line;
use scales::scale::Scale;
use scales::tick::valid;

// One tuple struct a scale, and no generic one: so no tick of one is taken for a tick of another.
#[derive(Clone, Copy, Debug, PartialEq, Eq, PartialOrd, Ord)]
pub struct Gps(pub i64);

#[derive(Clone, Copy, Debug, PartialEq, Eq, PartialOrd, Ord)]
pub struct Tai(pub i64);

#[derive(Clone, Copy, Debug, PartialEq, Eq, PartialOrd, Ord)]
pub struct Tt(pub i64);

#[derive(Clone, Copy, Debug, PartialEq, Eq, PartialOrd, Ord)]
pub struct Tcg(pub i64);

#[derive(Clone, Copy, Debug, PartialEq, Eq, PartialOrd, Ord)]
pub struct Tdb(pub i64);

#[derive(Clone, Copy, Debug, PartialEq, Eq, PartialOrd, Ord)]
pub struct Tcb(pub i64);

// How far TAI is ahead of GPS, and TT of TAI: 'TAI = GPS + 19 s', and 'TT = TAI + 32.184 s, that is
// 32,184,000,000 ticks.'
const TAI_AHEAD: i64 = 19_000_000_000;

const TT_AHEAD: i64 = 32_184_000_000;

impl Gps {
    // 'TAI = GPS + 19 s.'
    fn to_tai(self) -> Tai
        requires { nat_abs self.0 ≤ furthest }
        ensures { result.0 ≡ nearest_tick gps_to_tai self.0 }
    {
        Tai(self.0 + TAI_AHEAD)
    }
}

impl Tai {
    // The inverse of 'TAI = GPS + 19 s.'
    fn to_gps(self) -> Gps
        requires { nat_abs self.0 ≤ furthest }
        ensures { result.0 ≡ nearest_tick (inverse gps_to_tai) self.0 }
    {
        Gps(self.0 - TAI_AHEAD)
    }

    // 'TT = TAI + 32.184 s, that is 32,184,000,000 ticks.'
    fn to_tt(self) -> Tt
        requires { nat_abs self.0 ≤ furthest }
        ensures { result.0 ≡ nearest_tick tai_to_tt self.0 }
    {
        Tt(self.0 + TT_AHEAD)
    }
}

impl Tt {
    // The inverse of 'TT = TAI + 32.184 s.'
    fn to_tai(self) -> Tai
        requires { nat_abs self.0 ≤ furthest }
        ensures { result.0 ≡ nearest_tick (inverse tai_to_tt) self.0 }
    {
        Tai(self.0 - TT_AHEAD)
    }

    // 'TCG from TT and TCB from TDB are the exact inverse fractions.'
    #[tactic(auto, unfolding(pieces::specs::Rows::share_of))]
    fn to_tcg(self) -> Tcg
        requires { nat_abs self.0 ≤ furthest }
        ensures { result.0 ≡ nearest_tick (inverse tcg_to_tt) self.0 }
    {
        Tcg(self.0 + TCG_GAINS.up_to(self.0))
    }
}

impl Tcg {
    // 'TT = TCG − L_G·TCG, with L_G = 6969290134 / 10^19.'
    #[tactic(auto, unfolding(pieces::specs::Rows::share_of))]
    fn to_tt(self) -> Tt
        requires { nat_abs self.0 ≤ furthest }
        ensures { result.0 ≡ nearest_tick tcg_to_tt self.0 }
    {
        Tt(self.0 - TT_LOSES.up_to(self.0))
    }
}

impl Tdb {
    // 'TCG from TT and TCB from TDB are the exact inverse fractions.'
    #[tactic(auto, unfolding(pieces::specs::Rows::share_of))]
    fn to_tcb(self) -> Tcb
        requires { nat_abs self.0 ≤ furthest }
        ensures { result.0 ≡ nearest_tick (inverse tcb_to_tdb) self.0 }
    {
        Tcb(self.0 + TCB_GAINS.up_to(self.0))
    }
}

impl Tcb {
    // 'TDB = TCB − L_B·TCB − 65,500 ticks, with L_B = 1550519768 / 10^17.'
    #[tactic(auto, unfolding(pieces::specs::Rows::share_of))]
    fn to_tdb(self) -> Tdb
        requires { nat_abs self.0 ≤ furthest }
        ensures { result.0 ≡ nearest_tick tcb_to_tdb self.0 }
    {
        Tdb(self.0 - TDB_LOSES.up_to(self.0))
    }
}

// The step along a line, from an epoch of the scale in which it begins. It and the step back are
// two matches, since each arm goes from another struct to another.
pub fn along(line: Line, epoch: Epoch) -> Result<Epoch, Outside>
    ensures { result ≡ line_step (line_row line) epoch.tick }
{
    let tick = epoch.tick;
    if !valid(tick) {
        return Err(Outside::Range);
    }
    match line {
        Line::GpsTai => keep(Scale::Tai, Gps(tick).to_tai().0),
        Line::TaiTt => keep(Scale::Tt, Tai(tick).to_tt().0),
        Line::TcgTt => keep(Scale::Tt, Tcg(tick).to_tt().0),
        Line::TcbTdb => keep(Scale::Tdb, Tcb(tick).to_tdb().0),
    }
}

// The step back, from an epoch of the scale in which the line ends.
pub fn back(line: Line, epoch: Epoch) -> Result<Epoch, Outside>
    ensures { result ≡ line_step (turned (line_row line)) epoch.tick }
{
    let tick = epoch.tick;
    if !valid(tick) {
        return Err(Outside::Range);
    }
    match line {
        Line::GpsTai => keep(Scale::Gps, Tai(tick).to_gps().0),
        Line::TaiTt => keep(Scale::Tai, Tt(tick).to_tai().0),
        Line::TcgTt => keep(Scale::Tcg, Tt(tick).to_tcg().0),
        Line::TcbTdb => keep(Scale::Tcb, Tdb(tick).to_tcb().0),
    }
}
