// What transfers cost.
ghost use Rattle.isa.specs.Costs.{transfer_cost};

use crate::addressing::Addressing;
use crate::costs::Costs;
use crate::instructions::Transfer;

impl Costs for Transfer {
    ghost cost = { transfer_cost };

    fn length(self) -> u8 {
        match self {
            Transfer::MovToR1(_) | Transfer::MovFromR1(_) | Transfer::Exx | Transfer::Exa => 1,
            Transfer::Exh | Transfer::Block | Transfer::DmovFromEa(_) | Transfer::DmovToEa(_) => 1,
            Transfer::Push(_) | Transfer::Pop(_) => 1,
            Transfer::Mvi(_) | Transfer::Mvix(_) | Transfer::Staw | Transfer::Ldaw => 2,
            Transfer::Table => 2,
            Transfer::Mviw | Transfer::Lxi(_) => 3,
            Transfer::MovLoad(_)
            | Transfer::MovStore(_)
            | Transfer::StoreRp(_)
            | Transfer::LoadRp(_) => 4,
            Transfer::Stax(place) if place.takes_byte() => 2,
            Transfer::Stax(_) => 1,
            Transfer::Ldax(place) if place.takes_byte() => 2,
            Transfer::Ldax(_) => 1,
            Transfer::Steax(place) if place.takes_byte() => 3,
            Transfer::Steax(_) => 2,
            Transfer::Ldeax(place) if place.takes_byte() => 3,
            Transfer::Ldeax(_) => 2,
        }
    }

    fn states(self) -> u8 {
        match self {
            Transfer::MovToR1(_) | Transfer::MovFromR1(_) | Transfer::Exx | Transfer::Exa => 4,
            Transfer::Exh | Transfer::DmovFromEa(_) | Transfer::DmovToEa(_) => 4,
            Transfer::Mvi(_) => 7,
            Transfer::Mvix(_) | Transfer::Staw | Transfer::Ldaw | Transfer::Pop(_) => 10,
            Transfer::Lxi(_) => 10,
            Transfer::Mviw | Transfer::Block | Transfer::Push(_) => 13,
            Transfer::MovLoad(_) | Transfer::MovStore(_) | Transfer::Table => 17,
            Transfer::StoreRp(_) | Transfer::LoadRp(_) => 20,
            Transfer::Stax(place) if place.adds() => 13,
            Transfer::Stax(_) => 7,
            Transfer::Ldax(place) if place.adds() => 13,
            Transfer::Ldax(_) => 7,
            Transfer::Steax(place) if place.adds() => 20,
            Transfer::Steax(_) => 14,
            Transfer::Ldeax(place) if place.adds() => 20,
            Transfer::Ldeax(_) => 14,
        }
    }

    fn skipped(self) -> u8 {
        match self {
            Transfer::MovToR1(_) | Transfer::MovFromR1(_) | Transfer::Exx | Transfer::Exa => 4,
            Transfer::Exh | Transfer::Block | Transfer::DmovFromEa(_) | Transfer::DmovToEa(_) => 4,
            Transfer::Push(_) | Transfer::Pop(_) => 4,
            Transfer::Mvi(_) | Transfer::Mvix(_) | Transfer::Staw | Transfer::Ldaw => 7,
            Transfer::Table => 8,
            Transfer::Mviw | Transfer::Lxi(_) => 10,
            Transfer::MovLoad(_)
            | Transfer::MovStore(_)
            | Transfer::StoreRp(_)
            | Transfer::LoadRp(_) => 14,
            Transfer::Stax(place) if place.adds() => 7,
            Transfer::Stax(_) => 4,
            Transfer::Ldax(place) if place.adds() => 7,
            Transfer::Ldax(_) => 4,
            Transfer::Steax(place) if place.adds() => 11,
            Transfer::Steax(_) => 8,
            Transfer::Ldeax(place) if place.adds() => 11,
            Transfer::Ldeax(_) => 8,
        }
    }
}
