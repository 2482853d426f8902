//! A map with a table of its own has the steps of a map.
use crate::any_map::MapSteps;
use crate::map::ChunkMap;
use crate::seat::MapSeat;

impl MapSteps for ChunkMap {
    ghost use Rattle.std.specs.Prelude.{refl};
    ghost use Rattle.chunk_map.specs.Seats.{BelongsTo};
    ghost use Rattle.chunk_map.specs.Views.{does, frees_one, held_by};
    ghost use Rattle.chunk_map.specs.declared.view.MapView.{MapView};

    type Seat = MapSeat;

    ghost View = { MapView };

    ghost knows = { λ s. s.seat.me.0 };

    ghost belongs = { λ s m. BelongsTo s m };

    ghost segments = { λ m. m.segments };

    ghost events = { λ m v. v.log };

    ghost after = { λ m e v. does e v };

    ghost weighs = { λ m f v. held_by f v };

    ghost may_take = { λ m v. Unit {0} };

    fn see_open(&self, seat: &mut MapSeat) -> u64 {
        self.load_open(seat)
    }

    fn see_word(&self, seat: &mut MapSeat, number: usize) -> u64 {
        self.load_word(seat, number)
    }

    fn take(&self, seat: &mut MapSeat, chunk: usize) -> bool {
        self.take_bit(seat, chunk / 64, chunk % 64)
    }

    fn free(&self, seat: &mut MapSeat, chunk: usize) {
        self.free_bit(seat, chunk / 64, chunk % 64);
    }

    ghost logs = { λ m e v. refl };

    ghost looks = { λ m f count v. refl };

    ghost reads = { λ m f number found v. refl };

    ghost misses = { λ m f chunk v. refl };

    ghost gains = { λ m f chunk v inside. refl };

    ghost frees = { λ m f chunk v mine. frees_one f chunk v.held mine };

    ghost keeps_may_take = { λ m e v may. may };
}
