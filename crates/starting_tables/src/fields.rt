//! The fields that tables are made of, and where they stand: CWR 2.2, transaction records.

use cwr_share::fields::Field;

/// Work title, of an NWR and of a REV.
pub const TITLE: Field = Field {
    first: 20,
    last: 79,
};

/// ISWC, of an NWR and of a REV.
pub const ISWC: Field = Field {
    first: 96,
    last: 106,
};

/// Interested party number of a publisher (SPU).
pub const SPU_NUMBER: Field = Field {
    first: 22,
    last: 30,
};

/// Publisher name (SPU).
pub const SPU_NAME: Field = Field {
    first: 31,
    last: 75,
};

/// Publisher IPI name number (SPU).
pub const SPU_IPI: Field = Field {
    first: 88,
    last: 98,
};

/// Interested party number of a writer (SWR).
pub const SWR_NUMBER: Field = Field {
    first: 20,
    last: 28,
};

/// Writer last name (SWR).
pub const SWR_LAST_NAME: Field = Field {
    first: 29,
    last: 73,
};

/// Writer first name (SWR).
pub const SWR_FIRST_NAME: Field = Field {
    first: 74,
    last: 103,
};

/// Writer IPI name number (SWR).
pub const SWR_IPI: Field = Field {
    first: 116,
    last: 126,
};
