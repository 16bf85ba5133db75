#![tactic(auto)]

// The next step of settling, and settling: the definitions are those of crate settling.
ghost use Rattle.std.specs.Prelude.{◌≡◌};
ghost use Rattle.settling.specs.Columns.{columns_in};
ghost use Rattle.settling.specs.Ready.{Ready};
ghost use Rattle.settling.specs.Steps.{next_step, turn_of};
ghost use Rattle.settling.specs.Views.{vectors};

use settling::{Basis, Column, Step, Turn};
use work::Workspace;

mod given;
mod numbers;
mod places;
mod probes;
mod ranking;
mod seen;
mod sets;
pub mod settle;
mod turns;
mod work;

// The next step of settling, and the part that it belongs to.
pub fn turn_at(values: &[i64], columns: &[Column], basis: Basis) -> Turn
    requires { Ready basis values.now columns.now }
    ensures { result ≡ turn_of (columns_in basis.entry.columns columns.now) (vectors basis.entry) values.now }
{
    let mut work = Workspace::new();
    work.begin(basis);
    work.turn(columns, values, basis)
}

// The next step of settling: the first ranked column that a move improves, and its first such move.
pub fn next_step(values: &[i64], columns: &[Column], basis: Basis) -> Option<Step>
    requires { Ready basis values.now columns.now }
    ensures { result ≡ next_step (columns_in basis.entry.columns columns.now) (vectors basis.entry) values.now }
{
    turn_at(values, columns, basis).step
}
