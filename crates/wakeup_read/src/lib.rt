// The wake-ups of a decision read into a scratch, and taken out of the timers and the local list.
// In every function m is an image (crate machine says why it stays apart), and cpu the place in it of the CPU that decides;
// d is the scratch.
#![tactic(auto)]

mod take_out;

ghost use Rattle.std.specs.Prelude.{◌≡◌, [], ◌∷◌, ◌++◌, map, ◌+◌, ◌<◌, ◌≤◌, length, get_or};
ghost use Rattle.columns.specs.Common.{keep};
ghost use Rattle.entries.specs.Order.{is_due};
ghost use Rattle.table.specs.First.{lead};
ghost use Rattle.machine.specs.Machine.{Machine, cpu_at};
ghost use Rattle.machine.specs.Encode.{encode, cpu_place};
ghost use Rattle.machine.specs.Shape.{Image, Fits};
ghost use Rattle.model.specs.State.{state_of};
ghost use Rattle.model.specs.Wakeup.{local_wakeup, wakeups};
ghost use Rattle.wakeup_read.specs.Read.{wakeups_in, live_wakeups, TimerRead, NameRead, max_wakeups};
ghost use Rattle.numbers.specs.Limits.{max_number};
ghost use Rattle.percpu.specs.Places.{timers_count, local_count};

use entries::Timer;
use machine::CpuPlace;
use percpu::places;
pub use take_out::drain;
use wakeup_judge::Wakeup;

// how many wake-ups a decision can have
pub const MAX_WAKEUPS: usize = 128;

// How many timers at the front are due.
fn due(m: &[u64], cpu: CpuPlace, time: u64) -> usize
    requires image { Image cpu.c cpu.n m.now }
    requires bounded { time ≤ max_number }
    ensures { (result ≤ get_or m.now (cpu_place cpu.n cpu.k + timers_count) 0) × (result ≤ 64) × ((M : Machine) → m.now ≡ encode M → Fits cpu.c cpu.n M → result ≡ lead (is_due time) (cpu_at M cpu.k).timers) }
{
    let at = cpu.start();
    let end = at + places::BLOCK_SIZE;
    timers::due(&m[at..end], time)
}

fn timer(m: &[u64], cpu: CpuPlace, i: usize) -> Timer
    requires image { Image cpu.c cpu.n m.now }
    requires bounded { (i < get_or m.now (cpu_place cpu.n cpu.k + timers_count) 0) }
    ensures { TimerRead cpu.c cpu.n cpu.k i m.now result }
{
    let at = cpu.start();
    let end = at + places::BLOCK_SIZE;
    timers::timer(&m[at..end], i)
}

// How many names the local list has.
fn local_len(m: &[u64], cpu: CpuPlace) -> usize
    requires image { Image cpu.c cpu.n m.now }
    ensures { (result ≡ get_or m.now (cpu_place cpu.n cpu.k + local_count) 0) × (result ≤ 64) × ((M : Machine) → m.now ≡ encode M → Fits cpu.c cpu.n M → result ≡ length (cpu_at M cpu.k).local_wakeup_list) }
{
    let at = cpu.start() + places::LOCAL_COUNT;
    numbers::index(m[at])
}

fn local_name(m: &[u64], cpu: CpuPlace, i: usize) -> u64
    requires image { Image cpu.c cpu.n m.now }
    requires bounded { (i < get_or m.now (cpu_place cpu.n cpu.k + local_count) 0) }
    ensures { NameRead cpu.c cpu.n cpu.k i m.now result }
{
    let at = cpu.start() + places::LOCAL_WAKEUP_LIST + i;
    m[at]
}

// A due timer: behind the len wake-ups of the scratch if it is live. How many there are then.
fn read_timer(
    m: &[u64],
    d: &mut [Wakeup; MAX_WAKEUPS],
    c: usize,
    n: usize,
    sched: u64,
    len: usize,
    t: Timer,
) -> usize
    requires image { Image c n m.now }
    requires context_ref_bound { (t.context_ref < n) × (len < max_wakeups) }
    ensures { (result ≤ len + 1) × ((M : Machine) → m.now ≡ encode M → Fits c n M → wakeups_in d.new result ≡ wakeups_in d.old len ++ live_wakeups sched M.contexts (t ∷ [])) }
{
    let Some(x) = machine::look_up(m, c, n, t.context_ref) else {
        return len;
    };
    let q = machine::load(m, c, n, x);
    if wakeup_judge::is_live(sched, t, q) {
        d[len] = Wakeup {
            wake: Some(t.wake),
            context_ref: t.context_ref,
        };
        return len + 1;
    }
    len
}

// The due timers that are live, from the scratch's front. How many they are.
fn read_timers(m: &[u64], d: &mut [Wakeup; MAX_WAKEUPS], cpu: CpuPlace, time: u64) -> usize
    requires image { Image cpu.c cpu.n m.now }
    requires bounded { time ≤ max_number }
    ensures { (result ≤ 64) × ((M : Machine) → m.now ≡ encode M → Fits cpu.c cpu.n M → wakeups_in d.new result ≡ live_wakeups (cpu_at M cpu.k).block.sched_ctxt M.contexts (keep (is_due time) (cpu_at M cpu.k).timers)) }
{
    let b = stages::load_block(m, cpu);
    let count = due(m, cpu, time);
    let mut len = 0;
    for i in 0..count {
        let t = timer(m, cpu, i);
        len = read_timer(m, d, cpu.c, cpu.n, b.sched_ctxt, len, t);
    }
    len
}

// The local list's names behind the first `from` wake-ups. How many there are then.
fn read_local(m: &[u64], d: &mut [Wakeup; MAX_WAKEUPS], cpu: CpuPlace, from: usize) -> usize
    requires image { Image cpu.c cpu.n m.now }
    requires bounded { from ≤ 64 }
    ensures { (result ≤ max_wakeups) × ((M : Machine) → m.now ≡ encode M → Fits cpu.c cpu.n M → wakeups_in d.new result ≡ wakeups_in d.old from ++ map local_wakeup (cpu_at M cpu.k).local_wakeup_list) }
{
    let count = local_len(m, cpu);
    for i in 0..count {
        d[from + i] = Wakeup {
            wake: None,
            context_ref: local_name(m, cpu, i),
        };
    }
    from + count
}

// All wake-ups, in order. How many they are.
pub fn read_wakeups(m: &[u64], d: &mut [Wakeup; MAX_WAKEUPS], cpu: CpuPlace, time: u64) -> usize
    requires image { Image cpu.c cpu.n m.now }
    requires bounded { time ≤ max_number }
    ensures { (result ≤ max_wakeups) × ((M : Machine) → m.now ≡ encode M → Fits cpu.c cpu.n M → wakeups_in d.new result ≡ wakeups time (state_of cpu.k M)) }
{
    let len = read_timers(m, d, cpu, time);
    read_local(m, d, cpu, len)
}
