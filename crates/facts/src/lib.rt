// The four facts of a header, which a record is read and built under. Rests on nothing.
#![tactic(auto)]

// What the header says: strings in the dictionary, contigs, people, and the dictionary offset of GT.
#[derive(Clone, Copy, Debug, PartialEq, Eq)]
pub struct Facts {
    pub strings: u32,
    pub contigs: u32,
    pub people: u32,
    pub gt: u32,
}
