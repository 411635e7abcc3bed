// What goes wrong in a run, and what chance gives it.

/// A device whose calls are counted from 1.
#[derive(Clone, Copy, Debug, PartialEq, Eq)]
pub(crate) enum Device {
    Main,
    Spare,
    Source,
    Sink,
    Vault { slot: usize },
}

/// For each device the number of its call that fails, or 0; a file that is empty to whoever reads it, from the call of this
/// number of its store on, or 0 and 0; how many bytes the source gives at once; and the random word.
#[derive(Clone, Copy)]
pub(crate) struct Harm {
    pub(crate) main: u64,
    pub(crate) spare: u64,
    pub(crate) source: u64,
    pub(crate) sink: u64,
    pub(crate) vaults: [u64; 4],
    pub(crate) lost: (u64, u64),
    pub(crate) most: usize,
    pub(crate) word: u64,
}

/// Nothing goes wrong, and the word is 0.
pub(crate) const NO_HARM: Harm = Harm {
    main: 0,
    spare: 0,
    source: 0,
    sink: 0,
    vaults: [0, 0, 0, 0],
    lost: (0, 0),
    most: usize::MAX,
    word: 0,
};

impl Harm {
    /// The same where the call of this number of this device fails.
    pub(crate) fn with(self, device: Device, call: u64) -> Harm {
        let mut harm = self;
        match device {
            Device::Main => harm.main = call,
            Device::Spare => harm.spare = call,
            Device::Source => harm.source = call,
            Device::Sink => harm.sink = call,
            Device::Vault { slot } => {
                if slot < 4 {
                    harm.vaults[slot] = call;
                }
            }
        }
        harm
    }

    /// The call of the store on this slot that fails.
    pub(crate) fn of_vault(&self, slot: usize) -> u64 {
        if slot < 4 { self.vaults[slot] } else { 0 }
    }
}

/// The device of this name.
pub(crate) fn device_of(name: &str) -> Option<Device> {
    match name {
        "main" => Some(Device::Main),
        "spare" => Some(Device::Spare),
        "source" => Some(Device::Source),
        "sink" => Some(Device::Sink),
        "vault0" => Some(Device::Vault { slot: 0 }),
        "vault1" => Some(Device::Vault { slot: 1 }),
        "vault2" => Some(Device::Vault { slot: 2 }),
        "vault3" => Some(Device::Vault { slot: 3 }),
        _ => None,
    }
}
