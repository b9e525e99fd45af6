// Document 01's table of eight rows by payload size.
ghost use Rattle.std.specs.Prelude.{◌≡◌, get_or};
ghost use Rattle.field.specs.Table.{row_of, rows};

// What the size of a payload decides of its field. [3.7]
#[derive(Clone, Copy, PartialEq, Eq, Debug)]
pub struct Row {
    // How many bytes the field has, which is the DLC.
    pub bytes: usize,
    // The break bit; 0 in the empty field, which has none.
    pub break_bit: u64,
    // How many bits of padding there are.
    pub padding: usize,
}

const ROWS: [Row; 8] = [
    Row {
        bytes: 0,
        break_bit: 0,
        padding: 0,
    },
    Row {
        bytes: 2,
        break_bit: 1, // DLC 2
        padding: 6,
    },
    Row {
        bytes: 3,
        break_bit: 0, // DLC 3
        padding: 5,
    },
    Row {
        bytes: 4,
        break_bit: 1, // DLC 4
        padding: 4,
    },
    Row {
        bytes: 5,
        break_bit: 0, // DLC 5
        padding: 3,
    },
    Row {
        bytes: 6,
        break_bit: 1, // DLC 6
        padding: 2,
    },
    Row {
        bytes: 7,
        break_bit: 0, // DLC 7
        padding: 1,
    },
    Row {
        bytes: 8,
        break_bit: 1, // DLC 8
        padding: 0,
    },
];

// The rows of the sizes 0 to 7.
fn rows() -> &'static [Row; 8]
    ensures { result.now ≡ rows }
{
    &ROWS
}

// The row of a size; above 7, that of the empty payload, as the contract of `row_of` (PROMISES) has it: no Option.
pub fn row_of(size: usize) -> Row
    ensures { result ≡ get_or rows size (row_of 0) }
{
    let rows = rows();
    if 7 < size {
        return rows[0];
    }
    rows[size]
}
