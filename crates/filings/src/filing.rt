// A filing: what is asked of the register. `number` is that of the filing that made the entry which is meant.
#[derive(Clone, Copy, PartialEq, Eq, Debug)]
pub enum Filing {
    Transfer {
        parcel: u16,
        owner: u32,
        to: u32,
    },
    Charge {
        parcel: u16,
        owner: u32,
        holder: u32,
        amount: u64,
    },
    Reserve {
        parcel: u16,
        owner: u32,
        holder: u32,
    },
    Fill {
        parcel: u16,
        owner: u32,
        holder: u32,
        number: u16,
        amount: u64,
    },
    Release {
        parcel: u16,
        holder: u32,
        number: u16,
    },
    Postpone {
        parcel: u16,
        holder: u32,
        number: u16,
    },
    Subdivide {
        parcel: u16,
        owner: u32,
        area: u32,
    },
    Merge {
        parcel: u16,
        other: u16,
        owner: u32,
    },
}
