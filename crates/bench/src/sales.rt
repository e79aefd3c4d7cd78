// Sales of the largest size: 48 farms, 32 lines a farm, 4,096 bundles.
use crate::random::Random;
use anyhow::anyhow;
use bundle::{Bundle, Reserve, Supply};
use sheets::{Line, Sheet};
use std::alloc::{AllocError, Global};
use table::{fill, fill_with_marginals};

const FARMS: usize = 48;

const LINES: usize = 32;

// A row of 4,096 entries for each farm, and one for the reserve.
const TABLE_LENGTH: usize = (FARMS + 1) * 4096;

// What a sale is made of, but for its sheets.
// Units and prices apart, as `Supply::new` and `Reserve::new` take them.
pub struct Terms {
    name: &'static str,
    units: &'static [u8],
    prices: &'static [u32],
}

pub const SALES: [Terms; 2] = [
    Terms {
        name: "12 lots of 1 unit",
        units: &[1; 12],
        prices: &[10, 20, 30, 40, 50, 60, 70, 80, 90, 100, 110, 120],
    },
    Terms {
        name: "3 lots of 15 units",
        units: &[15; 3],
        prices: &[10, 20, 30],
    },
];

// A sale, and the rows that its table is filled in.
// It owns its name: a closure that takes a sale is not proved where a reference stands in it (tried).
#[derive(Drop)]
pub struct LargeSale {
    pub name: String,
    supply: Supply,
    reserve: Reserve,
    sheets: Vec<Sheet>,
    table: Vec<u64>,
    without: Vec<u64>,
}

// Sheets drawn at random, within a supply.
#[derive(Drop)]
struct Draw<'a> {
    random: Random,
    supply: &'a Supply,
}

impl<'a> Draw<'a> {
    fn within(supply: &'a Supply) -> Draw<'a> {
        Draw {
            random: Random::new(1),
            supply,
        }
    }

    fn units(&mut self) -> Bundle {
        let all = self.supply.units();
        let mut units = Bundle::empty(all.lots());
        // By place: a bundle that is made of a list of counts may be refused for its length, and this one cannot.
        for (lot, most) in all.units().iter().enumerate() {
            units = units.with_count(lot, self.random.count(*most));
        }
        units
    }

    fn line(&mut self) -> Line {
        Line {
            worth: self.random.worth(),
            units: self.units(),
        }
    }

    fn sheet(&mut self) -> Sheet {
        let mut sheet = Sheet::new();
        for _ in 0..LINES {
            if let Some(longer) = sheet.with_line(self.line()) {
                sheet = longer;
            }
        }
        sheet
    }

    fn sheets(&mut self, heap: Global) -> Result<Vec<Sheet>, AllocError> {
        (0..FARMS).map(|_| self.sheet()).collect(heap)
    }
}

impl LargeSale {
    pub fn new(heap: Global, terms: &Terms) -> anyhow::Result<LargeSale> {
        let supply = Supply::new(terms.units).map_err(|_| anyhow!("the supply is refused"))?;
        let reserve = Reserve::new(terms.prices).map_err(|_| anyhow!("the reserve is refused"))?;
        let sheets = Draw::within(&supply).sheets(heap)?;
        Ok(LargeSale {
            name: terms.name.to_owned(heap)?,
            supply,
            reserve,
            sheets,
            table: vec![in heap; 0; TABLE_LENGTH]?,
            without: vec![in heap; 0; FARMS]?,
        })
    }

    pub fn bundles(&self) -> usize {
        self.supply.bundles()
    }

    // The worth of the best choice: in a filled table the entry of the first row for the whole supply.
    pub fn best_worth(&self) -> u64 {
        let place = self.supply.place(&self.supply.units());
        self.table.get(place).copied().unwrap_or(0)
    }

    // The sum of the worths without each farm.
    pub fn marginals(&self) -> u64 {
        self.without
            .iter()
            .fold(0, |total, worth| total.saturating_add(*worth))
    }

    pub fn fill(&mut self) -> anyhow::Result<()> {
        fill(&self.supply, &self.reserve, &self.sheets, &mut self.table).map_err(|_| anyhow!(
            "the table is refused"
        ))
    }

    pub fn fill_with_marginals(&mut self) -> anyhow::Result<()> {
        fill_with_marginals(
            &self.supply,
            &self.reserve,
            &self.sheets,
            &mut self.table,
            &mut self.without,
        )
        .map_err(|_| anyhow!("the table is refused"))
    }
}
