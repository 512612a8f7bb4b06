//! Laws of tower files and bench files, which callers' proofs use.

ghost use Rattle.std.specs.Prelude.{◌≡◌, ℕ, ◌↔◌, List, Ok};
ghost use Rattle.tower_file.specs.Files.{File, IsLawfulFile};
ghost use Rattle.tower_file.specs.Spelling.{Spells, spelling};
ghost use Rattle.tower_file.specs.Reading.{file_reading};
ghost use Rattle.tower_file.specs.Benches.{Bench, IsLawfulBench};
ghost use Rattle.tower_file.specs.BenchSpelling.{SpellsBench, bench_spelling};
ghost use Rattle.tower_file.specs.BenchReading.{bench_reading};

/// Each lawful tower file is spelled by exactly one list of bytes, and no bytes spell two files.
/// `file_reading` gives a tower file for a list of bytes exactly if the bytes spell that file.
pub fn one_spelling()
    ensures spelling { (f : File) → IsLawfulFile f → Spells (spelling f) f }
    ensures bytes { (f : File) (a b : List ℕ) → Spells a f → Spells b f → a ≡ b }
    ensures file { (bytes : List ℕ) (f g : File) → Spells bytes f → Spells bytes g → f ≡ g }
    ensures reading { (bytes : List ℕ) (f : File)
        → (file_reading bytes ≡ Ok f) ↔ Spells bytes f }
{}

/// Each lawful bench file is spelled by exactly one list of bytes, and no bytes spell two files.
/// `bench_reading` gives a bench file for a list of bytes exactly if the bytes spell that file.
pub fn one_bench_spelling()
    ensures spelling { (b : Bench) → IsLawfulBench b → SpellsBench (bench_spelling b) b }
    ensures bytes { (b : Bench) (x y : List ℕ) → SpellsBench x b → SpellsBench y b → x ≡ y }
    ensures file { (bytes : List ℕ) (a b : Bench) → SpellsBench bytes a → SpellsBench bytes b
        → a ≡ b }
    ensures reading { (bytes : List ℕ) (b : Bench) → (bench_reading bytes ≡ Ok b)
        ↔ SpellsBench bytes b }
{}
