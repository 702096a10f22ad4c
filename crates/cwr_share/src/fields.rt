//! The fields that are read, and where they stand: CWR 2.2, transaction records.

/// Where a field stands in a line: its first and its last byte, counted from 1.
#[derive(Clone, Copy, Debug, PartialEq, Eq)]
pub struct Field {
    /// Its first byte.
    pub first: usize,
    /// Its last byte.
    pub last: usize,
}

/// Where the fields of a share line stand.
#[derive(Clone, Copy, Debug, PartialEq, Eq)]
pub struct ShareFields {
    /// Interested party number.
    pub party: Field,
    /// PR collection share, in hundredths of a per cent.
    pub performing: Field,
    /// MR collection share, in hundredths of a per cent.
    pub mechanical: Field,
    /// SR collection share, in hundredths of a per cent.
    pub synchronisation: Field,
    /// Inclusion/exclusion indicator.
    pub mark: Field,
    /// TIS numeric code.
    pub territory: Field,
}

/// Record type, of every record.
pub const TYPE: Field = Field { first: 1, last: 3 };

/// Submitter work number, of a new work registration (NWR) and of a revised one (REV).
pub const WORK: Field = Field {
    first: 82,
    last: 95,
};

/// A publisher's territory of control (SPT).
pub const SPT: ShareFields = ShareFields {
    party: Field {
        first: 20,
        last: 28,
    },
    performing: Field {
        first: 35,
        last: 39,
    },
    mechanical: Field {
        first: 40,
        last: 44,
    },
    synchronisation: Field {
        first: 45,
        last: 49,
    },
    mark: Field {
        first: 50,
        last: 50,
    },
    territory: Field {
        first: 51,
        last: 54,
    },
};

/// A writer's territory of control (SWT).
pub const SWT: ShareFields = ShareFields {
    party: Field {
        first: 20,
        last: 28,
    },
    performing: Field {
        first: 29,
        last: 33,
    },
    mechanical: Field {
        first: 34,
        last: 38,
    },
    synchronisation: Field {
        first: 39,
        last: 43,
    },
    mark: Field {
        first: 44,
        last: 44,
    },
    territory: Field {
        first: 45,
        last: 48,
    },
};

impl Field {
    ghost use Rattle.std.specs.Prelude.{◌≡◌};
    ghost use Rattle.cwr_share.specs.Fields.{field_of};

    /// The bytes of this field, fewer where the line ends before.
    pub fn of(self, line: &[u8]) -> &[u8]
        ensures { result.now ≡ field_of self line.now }
    {
        let last = self.last.min(line.len());
        let first = self.first.saturating_sub(1).min(last);
        &line[first..last]
    }
}
