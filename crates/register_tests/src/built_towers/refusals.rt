//! Tests of the constructors of layers: what they refuse, and the size, values, processes and depth
//! of what they build.

use crate::file_checks::assert_text;
use frames::register::Register;
use frames::safe::Safe;
use layers::fit::LayerError;
use matrix::{Matrix, NewMatrix};
use reader_copies::{Copies, NewCopies};
use regular_bit::{NewRegularBit, RegularBit};
use safe_bit::Place;
use stamped::{NewStamped, Stamped};
use std::process::Abort;
use std::test::Fail;
use towers::{regular, stamped, unary};
use unary_number::{NewUnary, Unary};

/// The result of a constructor: the size, values, processes and depth of the register, or a
/// refusal.
type Built = Result<(Place, u32, u32, u32), LayerError>;

const BAD_SIZE: Built = Err(LayerError::BadSize);

const TOO_MANY_BITS: Built = Err(LayerError::TooManyBits);

/// A size in cells and words.
fn size(cell: u32, word: u32) -> Place {
    Place { cell, word }
}

/// The result of a constructor, with the register replaced by its numbers.
fn shape_of<R: Register>(built: Result<R, LayerError>) -> Built {
    match built {
        Ok(register) => Ok((
            register.size(),
            register.values(),
            register.processes(),
            register.depth(),
        )),
        Err(error) => Err(error),
    }
}

/// Asserts the result of a constructor, which got these numbers.
fn assert_built(rt: &impl Abort, built: Built, expected: Built, numbers: &[u32]) {
    assert_eq!(rt; built, expected, "{numbers:?}");
}

/// Asserts for how many readers a safe bit can be copied.
fn assert_copies<S: Register>(rt: &impl Abort, bit: S) {
    for readers in [0, 5, u32::MAX] {
        assert_built(
            rt,
            shape_of(Copies::new(bit, readers)),
            BAD_SIZE,
            &[readers],
        );
    }
    for (readers, cells, processes) in [(1, 1, 2), (2, 2, 3), (3, 3, 4), (4, 4, 5)] {
        let expected = Ok((size(cells, 0), 2, processes, 2));
        assert_built(
            rt,
            shape_of(Copies::new(bit, readers)),
            expected,
            &[readers],
        );
    }
}

#[test]
fn over_safe_bits(rt: HostRuntime) -> Result<(), Fail> {
    assert_copies(&rt, Safe);
    let of_two_readers = Copies::new(Safe, 2)?;
    assert_eq!(rt;
        Copies::new(of_two_readers, 1).err(),
        Some(LayerError::BadSize)
    );
    let of_three_values = Unary::new(Safe, 3)?;
    assert_eq!(rt;
        RegularBit::new(of_three_values).err(),
        Some(LayerError::BadSize)
    );
    Ok(())
}

/// Asserts which unary numbers can be built over bits for four readers. Each bit has four cells and
/// a word.
fn assert_numbers<S: Register>(rt: &impl Abort, bits: S) {
    for values in [0, 1, 513, u32::MAX] {
        assert_built(rt, shape_of(Unary::new(bits, values)), BAD_SIZE, &[values]);
    }
    for (values, cells, words) in [(2, 8, 2), (3, 12, 3), (512, 2048, 512)] {
        let expected = Ok((size(cells, words), values, 5, 4));
        assert_built(rt, shape_of(Unary::new(bits, values)), expected, &[values]);
    }
}

#[test]
fn over_regular_bits(rt: HostRuntime) {
    assert_numbers(&rt, regular(4));
}

/// Asserts how many bits of 16 cells each a unary number can have.
fn assert_most_bits<S: Register>(rt: &impl Abort, of_16_cells: S) {
    match Unary::new(of_16_cells, 256) {
        Ok(most) => assert_eq!(rt; most.size().cell, 4096),
        Err(error) => assert!(rt; false, "{error}"),
    }
    assert_built(
        rt,
        shape_of(Unary::new(of_16_cells, 257)),
        TOO_MANY_BITS,
        &[257],
    );
}

/// Asserts for how many readers registers of 1,024 and of 1,028 cells can be copied.
fn assert_most_copies<S: Register>(rt: &impl Abort, of_1024_cells: S, of_1028_cells: S) {
    assert!(rt; Copies::new(of_1024_cells, 4).is_ok());
    assert!(rt; Copies::new(of_1028_cells, 3).is_ok());
    assert_built(
        rt,
        shape_of(Copies::new(of_1028_cells, 4)),
        TOO_MANY_BITS,
        &[4],
    );
}

#[test]
fn at_most_4096_cells(rt: HostRuntime) -> Result<(), Fail> {
    assert_most_bits(&rt, Unary::new(unary(2, 4), 2)?);
    let of_4_cells = Unary::new(unary(2, 1), 2)?;
    assert_most_copies(
        &rt,
        Unary::new(of_4_cells, 256)?,
        Unary::new(of_4_cells, 257)?,
    );
    Ok(())
}

/// Asserts which stamped registers can be built over registers of 4 and of 512 codes for one
/// reader, and over one of 4 codes for two readers.
fn assert_stamped<S: Register>(rt: &impl Abort, of_4: S, of_512: S, of_two_readers: S) {
    for (values, last, expected) in [
        (0, 0, BAD_SIZE),
        (1, 511, BAD_SIZE),
        (513, 0, BAD_SIZE),
        (2, 512, BAD_SIZE),
        (2, 256, BAD_SIZE),
        (u32::MAX, u32::MAX, BAD_SIZE),
        (2, 254, BAD_SIZE),
        (2, 255, Ok((size(512, 514), 2, 2, 5))),
        (512, 0, Ok((size(512, 514), 512, 2, 5))),
    ] {
        let built = shape_of(Stamped::new(of_512, values, last));
        assert_built(rt, built, expected, &[values, last]);
    }
    let small = Ok((size(4, 6), 2, 2, 5));
    assert_built(rt, shape_of(Stamped::new(of_4, 2, 1)), small, &[2, 1]);
    let refused = shape_of(Stamped::new(of_two_readers, 2, 1));
    assert_built(rt, refused, BAD_SIZE, &[2, 1]);
}

#[test]
fn over_unary_numbers(rt: HostRuntime) {
    assert_stamped(&rt, unary(4, 1), unary(512, 1), unary(4, 2));
    let bits_of_three_values = Unary::new(unary(3, 4), 4);
    assert_eq!(rt; bits_of_three_values.err(), Some(LayerError::BadSize));
    let parts_of_two_readers = Matrix::new(unary(8, 2), 2, 2, 1);
    assert_eq!(rt; parts_of_two_readers.err(), Some(LayerError::BadSize));
}

/// Asserts the results of building matrices over parts. A row has the numbers of processes and
/// values, the last tag, and the result.
fn assert_matrices_over<S: Register>(rt: &impl Abort, parts: S, rows: &[([u32; 3], Built)]) {
    for (numbers, expected) in rows {
        let [processes, values, last_tag] = *numbers;
        let built = shape_of(Matrix::new(parts, processes, values, last_tag));
        assert_built(rt, built, *expected, numbers);
    }
}

/// Registers of one kind, named by their number of values. The last three names also give the last
/// stamp, which is 0 for the other registers.
#[derive(Drop)]
struct Parts<S: Register> {
    of_4: S,
    of_8: S,
    of_10: S,
    of_512: S,
    of_8_and_3: S,
    of_16_and_15: S,
    of_16_and_16: S,
}

/// Asserts which matrices can be built over stamped registers.
fn assert_matrices<S: Register>(rt: &impl Abort, parts: Parts<S>) {
    let small = Ok((size(32, 40), 2, 2, 6));
    let larger = Ok((size(128, 136), 2, 2, 6));
    let largest = Ok((size(4096, 4128), 2, 4, 6));
    let of_4 = [([1, 2, 1], BAD_SIZE), ([2, 1, 0], BAD_SIZE)];
    assert_matrices_over(rt, parts.of_4, &of_4);
    assert_matrices_over(rt, parts.of_8, &[([2, 3, 1], BAD_SIZE), ([2, 2, 1], small)]);
    assert_matrices_over(rt, parts.of_10, &[([5, 2, 0], BAD_SIZE)]);
    let of_512 = [
        ([2, 513, 0], BAD_SIZE),
        ([2, 2, 512], BAD_SIZE),
        ([2, 2, 128], BAD_SIZE),
        ([4, 512, 511], BAD_SIZE),
        ([2, 2, 0], BAD_SIZE),
    ];
    assert_matrices_over(rt, parts.of_512, &of_512);
    assert_matrices_over(rt, parts.of_8_and_3, &[([2, 2, 1], larger)]);
    assert_matrices_over(rt, parts.of_16_and_15, &[([4, 2, 1], largest)]);
    assert_matrices_over(rt, parts.of_16_and_16, &[([4, 2, 1], TOO_MANY_BITS)]);
}

#[test]
fn over_stamped_registers(rt: HostRuntime) {
    let parts = Parts {
        of_4: stamped(4, 0),
        of_8: stamped(8, 0),
        of_10: stamped(10, 0),
        of_512: stamped(512, 0),
        of_8_and_3: stamped(8, 3),
        of_16_and_15: stamped(16, 15),
        of_16_and_16: stamped(16, 16),
    };
    assert_matrices(&rt, parts);
}

/// The number and the text of each refusal.
#[test]
fn numbers_and_texts(rt: HostRuntime) -> Result<(), Fail> {
    for (error, number, text) in [
        (LayerError::BadSize, 1, "1 BadSize"),
        (LayerError::TooManyBits, 2, "2 TooManyBits"),
    ] {
        assert_eq!(rt; error.number(), number);
        assert_text(&rt, &error, text)?;
    }
    Ok(())
}
