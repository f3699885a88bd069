// Document 01's cases that are run: the dealing's numbers, windows of four outputs, a record cut and lengthened, and every kind
// of line that the pair program prints.
#![tactic(auto)]

mod calls;
mod dealings;
mod lines;

fn main(rt: HostRuntime) {
    calls::dealings(&rt);
    calls::windows(&rt);
    calls::records(&rt);
    lines::refused(&rt);
    lines::too_large(&rt);
    lines::different(&rt);
    lines::checked(&rt);
}
