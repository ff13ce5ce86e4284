// The CPU and the context that a call names: refusals 5 and 6.
ghost use Rattle.std.specs.Prelude.{◌≡◌, ◌<◌};
ghost use Rattle.machine.specs.Machine.{Machine};
ghost use Rattle.machine.specs.Encode.{encode};
ghost use Rattle.machine.specs.Shape.{Image, Fits};
ghost use Rattle.context_ops.specs.Named.{named};
ghost use Rattle.refusal.specs.Number.{numbered};

use refusal::Refusal;

// The CPU and the context, or why the call is refused.
pub fn resolve(
    m: &[u64],
    c: usize,
    n: usize,
    cpu: u64,
    context: u64,
) -> Result<(usize, usize), Refusal>
    requires { Image c n m.now }
    ensures { (M : Machine) → m.now ≡ encode M → Fits c n M → numbered result ≡ named M cpu context }
{
    let Some(k) = machine::get_percpu_block(m, c, n, cpu) else {
        return Err(Refusal::Name);
    };
    let Some(x) = machine::look_up(m, c, n, context) else {
        return Err(Refusal::Name);
    };
    let at = machine::context_place(x) + context::places::LOCK;
    if m[at] != 0 {
        return Err(Refusal::Lock);
    }
    Ok((k, x))
}
