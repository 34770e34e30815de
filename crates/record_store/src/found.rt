// What was found in a slot.

#[derive(Drop)]
pub struct Found<T> {
    pub slot: u16,
    pub value: T,
}
