ghost use Rattle.plant.specs.Model.{leaves};
ghost use Rattle.plant.specs.Order.{OrderStands, AnyOrder};
ghost use Rattle.plant.specs.Replies.{replied};

use crate::works::Plant;

// Of every plant: only the order of works at one station counts. Two lists with the same works in the same order
// at each station leave the same state, and each station is replied to alike; and a work may be begun before
// others of other stations that stand above it.
pub fn order_stands<P: Plant>(_plant: &P) -> u8
    ensures lists { OrderStands P.model }
    ensures begun { AnyOrder (leaves P.model) (replied P.model) }
{
    0
}
