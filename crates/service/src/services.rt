// What every service promises, and what follows for a run of commands.
ghost use Rattle.std.specs.Prelude.{◌≡◌, ℕ};
ghost use Rattle.service.specs.Outcomes.{run};

// A service means a state. A command gives an answer and a next state, and both depend on the state
// and the command alone. The mark depends on the state alone, and reading it changes nothing.
pub trait Service {
    ghost State: { Type 0 };

    // The state that a service means.
    ghost state: { Self → State };

    // The answer to a command in a state.
    ghost answer: { State → ℕ → ℕ };

    // The state after a command.
    ghost next: { State → ℕ → State };

    // The mark of a state.
    ghost marked: { State → ℕ };

    // Carries out a command, and answers its result.
    fn apply(&mut self, command: u64) -> u64
        ensures value { result ≡ answer (state self.old) command }
        ensures after { state self.new ≡ next (state self.old) command };

    // A number by which states can be compared.
    fn mark(&self) -> u64
        ensures { result ≡ marked (state self.now) };
}

// Carries out the commands in turn, and lets the answers go.
pub fn apply_all<S: Service>(service: &mut S, commands: &[u64])
    ensures { S.state service.new ≡ run S.next (S.state service.old) commands.now }
{
    for &command in commands {
        service.apply(command);
    }
}
