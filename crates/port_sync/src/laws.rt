//! What an aligner says is what the port's grammar says.

ghost use Rattle.std.specs.Prelude.{◌≡◌, ℕ};
ghost use Rattle.trace_values.specs.Placed.{byte_at};
ghost use Rattle.frame_grammar.specs.Port.{rule};
ghost use Rattle.port_sync.specs.Aligned.{Begun, said, state_in, outcome};

/// With one more byte the grammar's rule says what the table of halfwords and synchronisations says.
pub fn rule_law()
    ensures { (begun : Begun) (here byte : ℕ) →
        rule (state_in begun) (byte_at here byte) ≡ outcome begun here byte (said begun.left begun.part byte) }
{}
