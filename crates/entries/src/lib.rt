// Entries of a lent list of lanes: read into an array of four by value, and stored from one.
#![tactic(auto)]

ghost use Rattle.std.specs.Prelude.{◌≡◌, ◌+◌, ◌<◌, ◌≤◌, ◌*◌, length};
ghost use Rattle.lanes.specs.Lists.{at};
ghost use Rattle.lanes.specs.Lanes.{lanes, cell, put, On, Width, room};

// Four numbers from place p on.
fn four(list: &[f64], p: usize) -> [f64; 4]
    requires { p + 4 ≤ length list.now }
    ensures { result ≡ lanes (λ l. at list.now (p + l)) }
{
    [list[p], list[p + 1], list[p + 2], list[p + 3]]
}

// Fewer than four numbers from place p on, the last of them repeated.
fn narrow(list: &[f64], p: usize, width: usize) -> [f64; 4]
    requires { (1 ≤ width) × (width ≤ 3) × (p + width ≤ length list.now) }
    ensures { On width result (λ l. at list.now (p + l)) }
{
    let h = width / 2;
    let l = width - 1;
    [list[p], list[p + h], list[p + l], list[p + l]]
}

// Entry `entry` of the working memory: its lanes lie at width·entry .. width·entry + width − 1. What the array has behind them is open.
#[tactic(auto, using(lanes::proofs::Regions::room_in))]
pub fn get(work: &[f64], entry: usize, width: usize) -> [f64; 4]
    requires { Width width × (entry < room width work.now) }
    ensures { On width result (cell width work.now entry) }
{
    if width == 4 {
        return four(work, 4 * entry);
    }
    narrow(work, width * entry, width)
}

// The lanes from `first` on of an entry of a list of `total` lanes. What the array has behind them is open.
#[tactic(auto, using(lanes::proofs::Regions::room_in))]
pub fn get_lanes(list: &[f64], total: usize, entry: usize, first: usize, width: usize) -> [f64; 4]
    requires { Width width × (first + width ≤ total) × (entry < room total list.now) }
    ensures { On width result (λ l. cell total list.now entry (first + l)) }
{
    let p = total * entry + first;
    if width == 4 {
        return four(list, p);
    }
    narrow(list, p, width)
}

fn put4(work: &mut [f64], entry: usize, v: [f64; 4])
    requires { 4 * entry + 4 ≤ length work.old }
    ensures { work.new ≡ put 4 work.old entry v }
{
    let p = 4 * entry;
    work[p..p + 4].copy_from_slice(&v);
}

// The first lanes of v, fewer than four. Every lane of v is read, so that v is worked out before it is known how many lanes there are.
#[tactic(auto, using(lanes::proofs::Regions::room_in))]
fn put_narrow(work: &mut [f64], entry: usize, width: usize, v: [f64; 4])
    requires { (1 ≤ width) × (width ≤ 3) × (entry < room width work.old) }
    ensures { work.new ≡ put width work.old entry v }
{
    let p = width * entry;
    let h = width / 2;
    let l = width - 1;
    work[p] = v[0];
    work[p + h] = v[h];
    work[p + l] = v[l];
}

// The first lanes of v, stored.
pub fn put(work: &mut [f64], entry: usize, width: usize, v: [f64; 4])
    requires { Width width × (entry < room width work.old) }
    ensures { work.new ≡ put width work.old entry v }
{
    if width == 4 {
        put4(work, entry, v);
        return;
    }
    put_narrow(work, entry, width, v);
}
