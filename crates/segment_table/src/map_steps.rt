//! The table has the steps of a chunk map. What weighs with a seat are the empty slots, which alone may be given back.
use crate::seat::SlotSeat;
use crate::table::SlotTable;
use chunk_map::MapSteps;

impl<T> MapSteps for SlotTable<T> {
    ghost use Rattle.std.specs.Prelude.{refl, Option};
    ghost use Rattle.atomic_table.specs.Table.{Me};
    ghost use Rattle.chunk_map.specs.declared.view.MapView.{MapView};
    ghost use Rattle.carried_slots.specs.EmptySlots.{empty_weight};
    ghost use Rattle.segment_table.specs.Events.{did, frees_one};
    ghost use Rattle.segment_table.specs.Owning.{BelongsTo};

    type Seat = SlotSeat<T>;

    ghost View = { Me (Option T) MapView };

    ghost knows = { λ s. s.seat.me };

    ghost belongs = { λ s m. BelongsTo s m };

    ghost segments = { λ m. m.segments };

    ghost events = { λ m v. v.0.log };

    ghost after = { λ m e v. did e v };

    ghost weighs = { λ m f v. empty_weight f v.1 };

    ghost may_take = { λ m v. Unit {0} };

    fn see_open(&self, seat: &mut SlotSeat<T>) -> u64 {
        self.load_open(seat)
    }

    fn see_word(&self, seat: &mut SlotSeat<T>, number: usize) -> u64 {
        self.load_word(seat, number)
    }

    fn take(&self, seat: &mut SlotSeat<T>, chunk: usize) -> bool {
        self.take_bit(seat, chunk / 64, chunk % 64)
    }

    fn free(&self, seat: &mut SlotSeat<T>, chunk: usize) {
        self.free_bit(seat, chunk / 64, chunk % 64);
    }

    ghost logs = { λ m e v. refl };

    ghost looks = { λ m f count v. refl };

    ghost reads = { λ m f number found v. refl };

    ghost misses = { λ m f chunk v. refl };

    ghost gains = { λ m f chunk v inside. refl };

    ghost frees = { λ m f chunk v mine. frees_one f chunk v.1 mine };

    ghost keeps_may_take = { λ m e v may. may };
}
