// The command `make`.

ghost use Rattle.std.specs.Prelude.{◌≡◌, ◌<◌, ℕ, false, None};
ghost use Rattle.io_model.specs.Sides.{sides_out, sides_told};
ghost use Rattle.command_line.specs.declared.commands.Command.TheVariants as commands;
ghost use Rattle.clv_commands.specs.Kinds.{IsOfMake};
ghost use Rattle.clv_commands.specs.Disks.{SparesDisks, Makes};
ghost use Rattle.clv_commands.specs.Causes.{HasBytes, CountsDisks};

use cluster_opening::make_all;
use clv_base::splits::Splits;
use command_line::Status;
use io_model::House;
use std::alloc::Global;

/// Makes the logs of the shards that these splits part.
pub fn make_logs<H: House>(alloc: Global, house: &mut H, splits: Splits) -> Status
    requires inside { (n : ℕ) → n < 16 → sides_out (H.is_out house.old) n ≡ (false, false) }
    ensures kind { IsOfMake result }
    ensures made { Makes (commands.Make splits) result (sides_told (H.story house.old)) (sides_told (H.story house.new)) }
    ensures spares { SparesDisks splits (sides_told (H.story house.old)) (sides_told (H.story house.new)) }
    ensures exists { HasBytes (commands.Make splits) result (sides_told (H.story house.old)) (sides_told (H.story house.new)) }
    ensures disks { CountsDisks None (H.faults house.old) (H.faults house.new) result }
    ensures back { (n : ℕ) → n < 16 → sides_out (H.is_out house.new) n ≡ (false, false) }
{
    match make_all(alloc, house, splits) {
        Ok(()) => Status::Fine,
        Err(error) => error.into(),
    }
}
