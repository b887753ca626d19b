// The ten numbers of a report, whatever they are.
#[derive(Clone, Copy, Debug, Default, PartialEq, Eq)]
pub struct Numbers {
    pub family: u8,
    pub row: u8,
    pub transport: u8,
    pub processing: u8,
    pub reading: u8,
    pub spare: u8,
    pub time: u64,
    pub place: u16,
    pub source: u16,
    pub destination: u16,
}

// The twelve fields of a report as numbers and byte strings, whatever they hold.
#[derive(Clone, Copy, Drop)]
pub struct Raw<T> {
    pub numbers: Numbers,
    pub id: T,
    pub acquired: T,
}
