//! Laws of a script's lines, which callers' proofs use.

ghost use Rattle.std.specs.Prelude.{◌≡◌, ◌↔◌, ℕ, List};
ghost use Rattle.script.specs.declared.call.Call.{Call};
ghost use Rattle.script.specs.declared.call.Line.{Line};
ghost use Rattle.script.specs.Lines.{read_line};
ghost use Rattle.script.specs.Spelling.{SpellsCall, LineSays};

/// Each call is spelled by at most one text. `read_line` returns `said` exactly if the line says
/// `said`. A line that is empty or begins with `#` says that it is blank; a line that spells a call
/// says that call; any other line says that it is bad.
pub fn one_text()
    ensures text { (a b : List ℕ) (c : Call) → SpellsCall a c → SpellsCall b c → a ≡ b }
    ensures reading { (line : List ℕ) (said : Line) → (read_line line ≡ said) ↔ LineSays line said }
{}
