// Sample sales, each with what it comes to.
use bundle::Bundle;
use sale::{Lot, Sale};
use sheets::{Line, Sheet};
use std::alloc::{AllocError, Global};
use std::test::Fail;

// A line: its farm, its worth, and its units of each lot.
pub type Stated<'a> = (u8, u32, &'a [u8]);

// What is for sale: the units of each lot, and its reserve.
// Apart, as `Supply::new` and `Reserve::new` take them.
#[derive(Clone, Copy)]
pub struct Terms<'a> {
    pub units: &'a [u8],
    pub prices: &'a [u32],
}

// What a sale should come to, with a place for each farm.
// Award and charges apart, as the rows that are lent.
#[derive(Clone, Copy)]
pub struct Outcome<'a> {
    pub award: &'a [u64],
    pub charges: &'a [u64],
    pub worth: u64,
}

#[derive(Clone, Copy)]
pub struct Sample<'a> {
    pub terms: Terms<'a>,
    pub lines: &'a [Stated<'a>],
    pub outcome: Outcome<'a>,
}

const TWO_LOTS: Terms = Terms {
    units: &[1, 1],
    prices: &[10, 10],
};

const ONE_LOT: Terms = Terms {
    units: &[1],
    prices: &[4],
};

pub const THREE: Sample = Sample {
    terms: TWO_LOTS,
    lines: &[(0, 120, &[1, 1]), (1, 70, &[1, 0]), (2, 60, &[0, 1])],
    outcome: Outcome {
        award: &[0, 1, 1],
        charges: &[0, 60, 50],
        worth: 130,
    },
};

pub const SALES: &[Sample] = &[
    THREE,
    Sample {
        terms: TWO_LOTS,
        lines: &[(0, 120, &[1, 1]), (1, 100, &[1, 0]), (2, 60, &[0, 1])],
        outcome: Outcome {
            award: &[0, 1, 1],
            charges: &[0, 60, 20],
            worth: 160,
        },
    },
    Sample {
        terms: TWO_LOTS,
        lines: &[(0, 120, &[1, 1]), (1, 40, &[1, 0]), (2, 60, &[0, 1])],
        outcome: Outcome {
            award: &[1, 0, 0],
            charges: &[100, 0, 0],
            worth: 120,
        },
    },
    // the others are outbid
    Sample {
        terms: TWO_LOTS,
        lines: &[(0, 140, &[1, 1]), (1, 70, &[1, 0]), (2, 60, &[0, 1])],
        outcome: Outcome {
            award: &[1, 0, 0],
            charges: &[130, 0, 0],
            worth: 140,
        },
    },
    // a tie
    Sample {
        terms: TWO_LOTS,
        lines: &[(0, 130, &[1, 1]), (1, 70, &[1, 0]), (2, 60, &[0, 1])],
        outcome: Outcome {
            award: &[0, 1, 1],
            charges: &[0, 70, 60],
            worth: 130,
        },
    },
    Sample {
        terms: Terms {
            units: &[3],
            prices: &[5],
        },
        lines: &[(0, 9, &[2]), (0, 6, &[1])],
        outcome: Outcome {
            award: &[2],
            charges: &[5],
            worth: 16,
        },
    },
    Sample {
        terms: Terms {
            units: &[2, 2],
            prices: &[3, 4],
        },
        lines: &[
            (0, 30, &[2, 0]),
            (0, 18, &[1, 0]),
            (1, 25, &[1, 1]),
            (1, 16, &[0, 1]),
            (2, 21, &[0, 2]),
            (2, 14, &[1, 0]),
            (3, 19, &[1, 0]),
        ],
        outcome: Outcome {
            award: &[2, 0, 1, 1],
            charges: &[13, 0, 20, 13],
            worth: 58,
        },
    },
    Sample {
        terms: Terms {
            units: &[2, 3],
            prices: &[7, 1],
        },
        lines: &[],
        outcome: Outcome {
            award: &[0, 0],
            charges: &[0, 0],
            worth: 17,
        },
    },
    Sample {
        terms: Terms {
            units: &[2],
            prices: &[4],
        },
        lines: &[(0, 9, &[1]), (1, 7, &[1]), (2, 6, &[1]), (3, 3, &[1])],
        outcome: Outcome {
            award: &[1, 1, 0, 0],
            charges: &[6, 6, 0, 0],
            worth: 16,
        },
    },
    Sample {
        terms: ONE_LOT,
        lines: &[(0, 4, &[1])],
        outcome: Outcome {
            award: &[0],
            charges: &[0],
            worth: 4,
        },
    },
    Sample {
        terms: ONE_LOT,
        lines: &[(0, 5, &[1])],
        outcome: Outcome {
            award: &[1],
            charges: &[4],
            worth: 5,
        },
    },
    Sample {
        terms: ONE_LOT,
        lines: &[(0, 5, &[0])],
        outcome: Outcome {
            award: &[1],
            charges: &[0],
            worth: 9,
        },
    },
];

impl Terms<'_> {
    pub fn lots(&self, heap: Global) -> Result<Vec<Lot>, AllocError> {
        self.units
            .iter()
            .zip(self.prices)
            .map(|(units, reserve)| Lot {
                units: *units,
                reserve: *reserve,
            })
            .collect(heap)
    }
}

fn line_of(worth: u32, units: &[u8]) -> Result<Line, Fail> {
    let Some(units) = Bundle::new(units) else {
        return Err(Fail::new("units"));
    };
    Ok(Line { worth, units })
}

impl Sample<'_> {
    pub fn farms(&self) -> usize {
        self.outcome.award.len()
    }

    fn sheet(&self, farm: usize) -> Result<Sheet, Fail> {
        let mut sheet = Sheet::new();
        for (_, worth, units) in self.lines.iter().filter(|line| usize::from(line.0) == farm) {
            let line = line_of(*worth, units)?;
            let Some(longer) = sheet.with_line(line) else {
                return Err(Fail::new("line"));
            };
            sheet = longer;
        }
        Ok(sheet)
    }

    // The sheet of each farm.
    pub fn sheets(&self, heap: Global) -> Result<Vec<Sheet>, Fail> {
        (0..self.farms())
            .map(|farm| self.sheet(farm))
            .try_collect(heap)
    }
}

// Two lots of 2 and 3 units without a reserve, and two farms with 100 and 50.
pub fn two_farms() -> Result<Sale, Fail> {
    let lots = [
        Lot {
            units: 2,
            reserve: 0,
        },
        Lot {
            units: 3,
            reserve: 0,
        },
    ];
    Ok(Sale::open(&lots, &[100, 50], 0)?)
}
