// What stealing changes in a CPU's block.
ghost use Rattle.std.specs.Prelude.{◌≡◌, not, ◌+◌, ◌≤◌, eqb, length, get_or};
ghost use Rattle.columns.specs.Common.{mark};
ghost use Rattle.entries.specs.Order.{entry_before};
ghost use Rattle.entries.specs.Sorted.{Sorted};
ghost use Rattle.percpu.specs.Cpu.{Cpu};
ghost use Rattle.percpu.specs.With.{cpu_total_weight};
ghost use Rattle.percpu.specs.Layout.{cpu_words};
ghost use Rattle.model.specs.Steal.{give_up, published, mark_stealable, count_steal};
ghost use Rattle.weights.specs.Weights.{max_weight};
ghost use Rattle.percpu.specs.Places.{queue_count, block_size, total_weight_place};
ghost use Rattle.stages.specs.Bounds.{b_moving};

use entries::Entry;
use percpu::places;

pub fn give_up(b: &mut [u64], e: Entry)
    requires { (length b.old ≡ block_size) × (get_or b.old queue_count 0 ≤ 64) }
    ensures { (p : Cpu) → b.old ≡ cpu_words p → length p.queue ≤ 64 → Sorted entry_before p.queue → b.new ≡ cpu_words (give_up e p) }
{
    run_queue::remove(b, e.key);
    b[places::TOTAL_WEIGHT] = b[places::TOTAL_WEIGHT].saturating_sub(e.weight);
}

pub fn add_weight(b: &mut [u64], weight: u64)
    requires { (length b.old ≡ block_size) × (get_or b.old total_weight_place 0 ≤ b_moving) × (weight ≤ max_weight) }
    ensures { (p : Cpu) → b.old ≡ cpu_words p → b.new ≡ cpu_words (cpu_total_weight (p.block.total_weight + weight) p) }
{
    b[places::TOTAL_WEIGHT] += weight;
}

// What other CPUs read.
pub fn publish(b: &mut [u64])
    requires { length b.old ≡ block_size }
    ensures { (p : Cpu) → b.old ≡ cpu_words p → b.new ≡ cpu_words (published p) }
{
    b[places::PUBLISHED_WEIGHT] = b[places::TOTAL_WEIGHT];
    b[places::QUEUE_LEN] = b[places::QUEUE_COUNT];
}

fn some(len: u64) -> u64
    ensures { result ≡ mark (not (eqb len 0)) }
{
    if len == 0 {
        return 0;
    }
    1
}

pub fn publish_victim(b: &mut [u64])
    requires { length b.old ≡ block_size }
    ensures { (p : Cpu) → b.old ≡ cpu_words p → b.new ≡ cpu_words (mark_stealable (published p)) }
{
    publish(b);
    b[places::STEALABLE] = some(b[places::QUEUE_COUNT]);
}

pub fn count_steal(b: &mut [u64])
    requires { length b.old ≡ block_size }
    ensures { (p : Cpu) → b.old ≡ cpu_words p → b.new ≡ cpu_words (count_steal p) }
{
    b[places::STEAL_COUNTER] = steal_judge::next_counter(b[places::STEAL_COUNTER]);
}
