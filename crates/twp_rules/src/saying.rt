/// What a phrase says that names no land.
#[derive(Clone, Copy)]
pub(crate) enum Saying {
    /// Anything that limits nothing.
    Remark,
    /// Rights that burden land, or go with it.
    Right,
    /// A plat or a record.
    Record,
    /// Minerals that are kept back.
    Reservation,
    /// What a lease or an interest is limited to.
    Term,
    /// Depths, and what is at them.
    Depth,
    /// A share of an interest.
    Interest,
    /// That land is described.
    Property,
    /// The number of a lease or a parcel.
    Code,
    /// Stated acreage.
    Acreage,
}
