// A CPU's state and counters (cpu_stats.rs).
#![tactic(auto)]

ghost use Rattle.std.specs.Prelude.{◌≡◌, ℕ, ◌<◌, ◌≤◌};
ghost use Rattle.cpu_stats.specs.State.{state_number, state_of};
ghost use Rattle.cpu_stats.specs.With.{stats_state};
ghost use Rattle.cpu_stats.specs.Counted.{time_added, switch_added, CountersBelow};
ghost use Rattle.numbers.specs.Limits.{number_range, half_range};

#[derive(Clone, Copy, PartialEq, Eq)]
pub enum CpuState {
    Idle,
    Kernel,
    User,
}

#[derive(Clone, Copy)]
pub struct CpuStats {
    pub state: CpuState,
    // milliseconds spent in each state
    pub user: u64,
    pub kernel: u64,
    pub idle: u64,
    pub context_switches: u64,
    pub syscall_switches: u64,
}

impl From<CpuState> for u64 {
    ghost from_gives = { λ s w. w ≡ state_number s };

    fn from(s: CpuState) -> u64 {
        s as u64
    }
}

impl From<u64> for CpuState {
    ghost from_gives = { λ w s. s ≡ state_of w };

    fn from(w: u64) -> CpuState {
        match w {
            0 => CpuState::Idle,
            1 => CpuState::Kernel,
            _ => CpuState::User,
        }
    }
}

impl CpuStats {
    pub fn set_state(&mut self, new_state: CpuState)
        ensures { self.new ≡ stats_state new_state self.old }
    {
        self.state = new_state;
    }

    // Milliseconds for the state that the CPU is in.
    #[tactic(auto, unfolding(crate::specs::Counted::time_added))]
    pub fn add_time(&mut self, ms: u64)
        requires counters_below { CountersBelow half_range self.old }
        requires ms_lt_number_range { ms < number_range }
        ensures { self.new ≡ time_added ms self.old }
    {
        match self.state {
            CpuState::Idle => self.idle += ms,
            CpuState::Kernel => self.kernel += ms,
            CpuState::User => self.user += ms,
        }
    }

    // A switch, and whether it was made inside a system call.
    pub fn add_context_switch(&mut self, inside_syscall: bool)
        requires { CountersBelow half_range self.old }
        ensures { self.new ≡ switch_added inside_syscall self.old }
    {
        self.context_switches += 1;
        if inside_syscall {
            self.syscall_switches += 1;
        }
    }
}
