//! Rows given back with the images of a plan.
ghost use Rattle.std.specs.Prelude.{◌≡◌, ◌≢◌, ℕ, None};
ghost use Rattle.lt_rows.specs.Views.{row_at};
ghost use Rattle.lt_rows.specs.Handles.{knows, IsPassOf, IsSamePass};
ghost use Rattle.lt_tree.specs.States.{OnlyHeld};
ghost use Rattle.lt_chain.specs.Images.{HoldsImage, HoldsImages, AreApart, IsGone};

use crate::images::Images;
use lt_rows::{RowImage, RowPass, RowTable};

/// Stores the image of a row after its commit, and gives the row back.
pub(crate) fn give_back(table: &RowTable, pass: &mut RowPass, image: &RowImage)
    requires of { IsPassOf table.now pass.old }
    requires row { HoldsImage (knows pass.old) image.now }
    ensures of { IsPassOf table.now pass.new × IsSamePass pass.old pass.new }
    ensures only { OnlyHeld (knows pass.old) (knows pass.new) }
    ensures gone { row_at (knows pass.new) image.now.row ≡ None }
    ensures others { (r : ℕ) → r ≢ image.now.row → row_at (knows pass.new) r ≡ row_at (knows pass.old) r }
{
    table.write_row(pass, image);
    table.put(pass, image.row);
}

/// The same of three rows.
pub(crate) fn give_back_three(table: &RowTable, pass: &mut RowPass, images: &Images)
    requires of { IsPassOf table.now pass.old }
    requires rows { HoldsImages (knows pass.old) images.now }
    requires apart { AreApart images.now }
    ensures of { IsPassOf table.now pass.new × IsSamePass pass.old pass.new }
    ensures only { OnlyHeld (knows pass.old) (knows pass.new) }
    ensures gone { IsGone (knows pass.new) images.now }
    ensures others { (r : ℕ) → r ≢ images.now.anchor.row → r ≢ images.now.pool.row → r ≢ images.now.row.row
        → row_at (knows pass.new) r ≡ row_at (knows pass.old) r }
{
    give_back(table, pass, &images.anchor);
    give_back(table, pass, &images.pool);
    give_back(table, pass, &images.row);
}
