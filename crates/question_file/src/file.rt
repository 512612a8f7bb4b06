//! The contents of a question file.

ghost use Rattle.std.specs.Prelude.{◌≡◌, true};
ghost use Rattle.tower_file.specs.Towers.{is_lawful_tower};
ghost use Rattle.question_file.specs.Asked.{is_limit};

use answers::question::Question;
use tower_file::TowerSpec;

/// The most states to search if the file doesn't give their number.
pub const DEFAULT_MOST_STATES: u32 = 1 << 20;

/// What a question file says: a tower, a question about its register, and the most states to search
/// if the file says how many.
#[derive(Debug, Drop)]
pub struct QuestionFile {
    pub tower: TowerSpec,
    pub question: Question,
    pub most: Option<u32>,
    pub ghost lawful: { is_lawful_tower tower ≡ true },
    pub ghost limit: { is_limit most ≡ true },
}
