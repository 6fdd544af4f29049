#![tactic(auto)]

// What is demanded of solver, maker and gate is in specs/, and the theorems about what their calls promise in proofs/.
ghost use Rattle.std.specs.Prelude.{◌≡◌};
