// What a line of a script begins with: known before its columns are, and so no `Order` yet.
#[derive(Clone, Copy)]
pub enum Kind {
    Netw,
    Open,
    Shut,
    Limt,
    Valv,
    Rept,
    Govn,
    Shet,
    Flow,
    Plac,
    Schd,
    Step,
}
