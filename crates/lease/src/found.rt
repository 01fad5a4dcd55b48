// What a server finds when it reads its lease table at a restart.
#[derive(Clone, Copy, PartialEq, Eq, Debug)]
pub enum Found {
    Table,
    Nothing,
}
