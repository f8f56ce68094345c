// The fields of the Terminal Control Area: what each is called, where it stands, how long it is and
// whose half of the area it lies in.
ghost use Rattle.std.specs.Prelude.{◌≡◌};
ghost use Rattle.tca.specs.Table.{table, Sound};

// Where the control unit's half begins, and the data area after it.
pub const UNIT_HALF: u16 = 0x40;

pub const DATA_AREA: u16 = 0x80;

// Who owns a field: the device X'00' to X'3F', the control unit X'40' to X'7F'.
#[derive(Clone, Copy)]
pub enum Half {
    Device,
    Unit,
}

#[derive(Clone, Copy)]
pub enum Name {
    // the toggle that says that an event is there
    Dpastat,
    // the toggle that says that a synchronous status is there
    Dpsstat,
    // the synchronous status: its value and its parameters
    Dssv,
    Dssp,
    Dssp2,
    Dssp3,
    // the event: its logical terminal, its value and its parameters
    Daltad,
    Daev,
    Daep,
    Daep2,
    Daep3,
    Daep4,
    // the expedited status: its logical terminal and its value
    Exflt,
    Exfrq,
    // the toggle that says that an expedited status is there
    Exfak,
    // the request: where its data begins, its logical terminal and its function code
    Cudp,
    Cultad,
    Cufrv,
    // the toggle that tells a new request from one sent again
    Cusyn,
    // the request's parameters
    Cufrp1,
    Cufrp2,
    Cufrp3,
    Cufrp4,
    // the addresses of the logical terminals
    Culta1,
    Culta2,
    Culta3,
    Culta4,
    Culta5,
    // the expedited status's data
    Exfd1,
    Exfd2,
    Exfd3,
    Exfd4,
}

#[derive(Clone, Copy)]
pub struct Field {
    pub name: Name,
    pub address: u16,
    pub length: u16,
    pub half: Half,
}

pub const DPASTAT: Field = Field {
    name: Name::Dpastat,
    address: 0x00,
    length: 1,
    half: Half::Device,
};

pub const DPSSTAT: Field = Field {
    name: Name::Dpsstat,
    address: 0x01,
    length: 1,
    half: Half::Device,
};

pub const DSSV: Field = Field {
    name: Name::Dssv,
    address: 0x02,
    length: 1,
    half: Half::Device,
};

pub const DSSP: Field = Field {
    name: Name::Dssp,
    address: 0x03,
    length: 1,
    half: Half::Device,
};

pub const DSSP2: Field = Field {
    name: Name::Dssp2,
    address: 0x04,
    length: 1,
    half: Half::Device,
};

pub const DSSP3: Field = Field {
    name: Name::Dssp3,
    address: 0x05,
    length: 1,
    half: Half::Device,
};

pub const DALTAD: Field = Field {
    name: Name::Daltad,
    address: 0x06,
    length: 1,
    half: Half::Device,
};

pub const DAEV: Field = Field {
    name: Name::Daev,
    address: 0x07,
    length: 1,
    half: Half::Device,
};

pub const DAEP: Field = Field {
    name: Name::Daep,
    address: 0x08,
    length: 1,
    half: Half::Device,
};

pub const DAEP2: Field = Field {
    name: Name::Daep2,
    address: 0x09,
    length: 1,
    half: Half::Device,
};

pub const DAEP3: Field = Field {
    name: Name::Daep3,
    address: 0x0a,
    length: 1,
    half: Half::Device,
};

pub const DAEP4: Field = Field {
    name: Name::Daep4,
    address: 0x0b,
    length: 1,
    half: Half::Device,
};

pub const EXFLT: Field = Field {
    name: Name::Exflt,
    address: 0x20,
    length: 1,
    half: Half::Device,
};

pub const EXFRQ: Field = Field {
    name: Name::Exfrq,
    address: 0x21,
    length: 1,
    half: Half::Device,
};

pub const EXFAK: Field = Field {
    name: Name::Exfak,
    address: 0x26,
    length: 1,
    half: Half::Device,
};

pub const CUDP: Field = Field {
    name: Name::Cudp,
    address: 0x40,
    length: 2,
    half: Half::Unit,
};

pub const CULTAD: Field = Field {
    name: Name::Cultad,
    address: 0x42,
    length: 1,
    half: Half::Unit,
};

pub const CUFRV: Field = Field {
    name: Name::Cufrv,
    address: 0x44,
    length: 1,
    half: Half::Unit,
};

pub const CUSYN: Field = Field {
    name: Name::Cusyn,
    address: 0x45,
    length: 1,
    half: Half::Unit,
};

pub const CUFRP1: Field = Field {
    name: Name::Cufrp1,
    address: 0x46,
    length: 1,
    half: Half::Unit,
};

pub const CUFRP2: Field = Field {
    name: Name::Cufrp2,
    address: 0x47,
    length: 1,
    half: Half::Unit,
};

pub const CUFRP3: Field = Field {
    name: Name::Cufrp3,
    address: 0x48,
    length: 1,
    half: Half::Unit,
};

pub const CUFRP4: Field = Field {
    name: Name::Cufrp4,
    address: 0x49,
    length: 1,
    half: Half::Unit,
};

pub const CULTA1: Field = Field {
    name: Name::Culta1,
    address: 0x54,
    length: 1,
    half: Half::Unit,
};

pub const CULTA2: Field = Field {
    name: Name::Culta2,
    address: 0x55,
    length: 1,
    half: Half::Unit,
};

pub const CULTA3: Field = Field {
    name: Name::Culta3,
    address: 0x56,
    length: 1,
    half: Half::Unit,
};

pub const CULTA4: Field = Field {
    name: Name::Culta4,
    address: 0x57,
    length: 1,
    half: Half::Unit,
};

pub const CULTA5: Field = Field {
    name: Name::Culta5,
    address: 0x58,
    length: 1,
    half: Half::Unit,
};

pub const EXFD1: Field = Field {
    name: Name::Exfd1,
    address: 0x5c,
    length: 1,
    half: Half::Unit, // though the device fills it in
};

pub const EXFD2: Field = Field {
    name: Name::Exfd2,
    address: 0x5d,
    length: 1,
    half: Half::Unit,
};

pub const EXFD3: Field = Field {
    name: Name::Exfd3,
    address: 0x5e,
    length: 1,
    half: Half::Unit,
};

pub const EXFD4: Field = Field {
    name: Name::Exfd4,
    address: 0x5f,
    length: 1,
    half: Half::Unit,
};

// Every field once, in the order of the addresses.
pub const FIELDS: [Field; 32] = [
    DPASTAT, DPSSTAT, DSSV, DSSP, DSSP2, DSSP3, DALTAD, DAEV, DAEP, DAEP2, DAEP3, DAEP4, EXFLT,
    EXFRQ, EXFAK, CUDP, CULTAD, CUFRV, CUSYN, CUFRP1, CUFRP2, CUFRP3, CUFRP4, CULTA1, CULTA2,
    CULTA3, CULTA4, CULTA5, EXFD1, EXFD2, EXFD3, EXFD4,
];

// The table itself: the clauses are about the value returned, so that a wrong row is refused here.
pub fn fields() -> [Field; 32]
    ensures value { result ≡ table }
    ensures sound { Sound result }
{
    FIELDS
}
