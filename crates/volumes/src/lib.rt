#![tactic(auto)]

// Document 02, (iii): the section of volumes. A path is read as marks, one for each column, of those that it goes over; the row of a later path is
// path 1's marks less its own. The right sides behind the rows are 0 already, as these rows' are.
ghost use Rattle.std.specs.Prelude.{◌≡◌, [], ◌+◌, ◌<◌, ◌≤◌, IfOk};
ghost use Rattle.sections.specs.Sections.{deck_columns, deck_rows};
ghost use Rattle.sections.specs.SectionsRead.{LeftOpen};
ghost use Rattle.volumes.specs.Volumes.{indices, path, paths, later_paths as later·rule, path_count, volume, volume_section};
ghost use Rattle.volumes.specs.VolumesRead.{as_marks, less, LaterRead, PathsRead, VolumeRead, volumes_left};

use problem::Refusal;
use sections::rules::{no_less, within};
use sections::{Cursor, Outcome, Rows, Sizes};

// Whether a path goes over each of the columns.
type Marks = [bool; Sizes::COLUMNS];

// A path's k indices: one whose mark is set comes twice.
fn read_indices(s: &[u8], at: usize, k: usize, count: usize) -> Outcome<Marks>
    requires { count ≤ deck_columns }
    ensures { result ≡ as_marks (indices s.now k count [] at) }
{
    let mut marks = [false; Sizes::COLUMNS];
    let mut at = at;
    for _ in 0..k {
        let (index, next) = within(s, at, 1, count as i64, Refusal::Volume)?;
        let j = index as usize - 1;
        let twice = marks[j];
        if twice {
            return Err(Refusal::Volume);
        }
        marks[j] = true;
        at = next;
    }
    Ok((marks, at))
}

// A path: its count of intervals, and their indices.
fn read_path(s: &[u8], at: usize, count: usize) -> Outcome<Marks>
    requires { count ≤ deck_columns }
    ensures { result ≡ as_marks (path s.now count at) }
{
    let (k, at) = no_less(s, at, 1, Refusal::Volume)?;
    read_indices(s, at, k as usize, count)
}

// The first marks less the second, a mark counting 1.
fn later_row(first: &Marks, later: &Marks) -> [i64; Sizes::COLUMNS]
    ensures { result ≡ less first.now later.now }
{
    let mut row = [0; Sizes::COLUMNS];
    // By index: of what is written through `iter_mut` a proof learns nothing.
    for j in 0..Sizes::COLUMNS {
        row[j] = i64::from(first[j]) - i64::from(later[j]);
    }
    row
}

// The next later path, and its row.
fn next_path(s: &[u8], c: Cursor, first: &Marks, rows: &mut Rows) -> Result<Cursor, Refusal>
    requires { (c.intervals ≤ deck_columns) × (c.rows < deck_rows) }
    ensures { LaterRead (path s.now c.intervals c.at) c result first.now rows.old rows.new }
{
    let (later, at) = read_path(s, c.at, c.intervals)?;
    rows[c.rows] = later_row(first, &later);
    Ok(Cursor {
        at,
        rows: c.rows + 1,
        ..c
    })
}

// The k later paths of a volume.
fn later_paths(
    s: &[u8],
    start: Cursor,
    k: usize,
    first: &Marks,
    rows: &mut Rows,
) -> Result<Cursor, Refusal>
    requires { (start.intervals ≤ deck_columns) × (start.rows + k ≤ deck_rows) }
    ensures { PathsRead (λ done. paths s.now k start.intervals done start.at) k start result first.now rows.old rows.new }
{
    let mut c = start;
    for _ in 0..k {
        c = next_path(s, c, first, rows)?;
    }
    Ok(c)
}

// A count of paths, unless their rows are too many.
fn count_paths(s: &[u8], at: usize, rows: usize) -> Outcome<usize>
    requires { rows ≤ deck_rows }
    ensures read { result ≡ path_count s.now rows at }
    ensures room { IfOk result (λ x. (1 ≤ x.0) × (rows + later·rule x.0 ≤ deck_rows)) }
{
    let (k, at) = no_less(s, at, 1, Refusal::Volume)?;
    let k = k as usize;
    if Sizes::ROWS - rows < k - 1 {
        Err(Refusal::Size)
    } else {
        Ok((k, at))
    }
}

// A volume, and the rows of its later paths.
fn read_volume(s: &[u8], c: Cursor, rows: &mut Rows) -> Result<Cursor, Refusal>
    requires { (c.intervals ≤ deck_columns) × (c.rows ≤ deck_rows) }
    ensures read { VolumeRead (volume s.now c.intervals c.rows c.at) c result rows.old rows.new }
    ensures room { IfOk result (λ d. d.rows ≤ deck_rows) }
{
    let (k, at) = count_paths(s, c.at, c.rows)?;
    let (first, at) = read_path(s, at, c.intervals)?;
    later_paths(s, Cursor { at, ..c }, k - 1, &first, rows)
}

// The count of volumes and then each of them. A refused section may leave some rows.
fn scan_volumes(s: &[u8], start: Cursor, rows: &mut Rows) -> Result<Cursor, Refusal>
    requires { (start.intervals ≤ deck_columns) × (start.rows ≤ deck_rows) }
    ensures cursor { IfOk result (λ c. (c.intervals ≡ start.intervals) × (c.columns ≡ start.columns) × (c.rows ≤ deck_rows)) }
    ensures read { LeftOpen (volumes_left start rows.old) (volume_section s.now start.intervals start.rows start.at) result rows.new }
{
    let (k, at) = no_less(s, start.at, 0, Refusal::Volume)?;
    let mut c = Cursor { at, ..start };
    for _ in 0..k as usize {
        c = read_volume(s, c, rows)?;
    }
    Ok(c)
}

// The section of volumes: its rows go behind those that are in the table.
#[tactic(auto, unfolding(sections::specs::StatedColumns::blank_tables))]
pub fn read_volumes(s: &[u8], start: Cursor, rows: &mut Rows) -> Result<Cursor, Refusal>
    requires { (start.intervals ≤ deck_columns) × (start.rows ≤ deck_rows) }
    ensures cursor { IfOk result (λ c. (c.intervals ≡ start.intervals) × (c.columns ≡ start.columns) × (c.rows ≤ deck_rows)) }
    ensures read { volumes_left start rows.old (volume_section s.now start.intervals start.rows start.at) ≡ (result, rows.new) }
{
    let read = scan_volumes(s, start, rows);
    if read.is_err() {
        *rows = [[0; Sizes::COLUMNS]; Sizes::ROWS];
    }
    read
}
