//! What is undefined, each case beside one that is defined.

use crate::driver::is_defined;
use std::test::Fail;

// An undefined text, one beside it that is defined, and what their kernels are given.
type Pair<'a> = (&'a str, &'a str, &'a str);

// Two barriers that stand in one use of a macro are two.
const MACRO_BY_ITEM: &str = "#define TURNS if(get_local_id(0))barrier(1);else barrier(1)
__kernel void k(__global int*a){TURNS;}";

const MACRO_BY_GROUP: &str = "#define TURNS if(get_group_id(0))barrier(1);else barrier(1)
__kernel void k(__global int*a){TURNS;}";

#[test]
fn tells_bytes_that_were_never_set(rt: HostRuntime) -> Result<(), Fail> {
    let table: [Pair<'_>; 15] = [
        (
            "__kernel void k(__global int*a){int x;a[0]=x;}",
            "__kernel void k(__global int*a){int x;x=1;a[0]=x;}",
            "w 0",
        ),
        (
            "__kernel void k(__global int*a){int x[2];x[0]=1;a[0]=x[1];}",
            "__kernel void k(__global int*a){int x[2];x[0]=1;a[0]=x[0];}",
            "w 0",
        ),
        (
            "typedef struct{int m,n;}S;__kernel void k(__global int*a){S s;s.m=1;a[0]=s.n;}",
            "typedef struct{int m,n;}S;__kernel void k(__global int*a){S s;s.m=1;a[0]=s.m;}",
            "w 0",
        ),
        (
            "typedef struct{int m,n;}S;__kernel void k(__global int*a){S s,t;s.m=1;t=s;a[0]=t.m;}",
            "typedef struct{int m,n;}S;__kernel void k(__global int*a){S s,t;s.m=1;s.n=2;t=s;a[0]=t.m;}",
            "w 0",
        ),
        (
            "__kernel void k(__global int*a){int2 v;v.x=1;a[0]=v.y;}",
            "__kernel void k(__global int*a){int2 v;v.x=1;a[0]=v.x;}",
            "w 0",
        ),
        (
            "__kernel void k(__global int*a){int2 v;v.x=1;v+=1;}",
            "__kernel void k(__global int*a){int2 v;v.x=1;v.y=1;v+=1;}",
            "w 0",
        ),
        (
            "__kernel void k(__global int*a){int x;x++;}",
            "__kernel void k(__global int*a){int x=0;x++;}",
            "w 0",
        ),
        (
            "__kernel void k(__global int*a){for(int i=0;i<2;i++){int x;if(i==0)x=7;a[0]=x;}}",
            "__kernel void k(__global int*a){for(int i=0;i<2;i++){int x;x=7;a[0]=x;}}",
            "w 0",
        ),
        (
            "int f(int n){int x;if(n)x=n;return x;}__kernel void k(__global int*a){a[0]=f(1);a[0]=f(0);}",
            "int f(int n){int x;if(n)x=n;return x;}__kernel void k(__global int*a){a[0]=f(1);a[0]=f(2);}",
            "w 0",
        ),
        (
            "__kernel void k(__global int*a){int x=1;int*p;if(a[0])p=&x;a[0]=*p;}",
            "__kernel void k(__global int*a){int x=1;int*p;if(!a[0])p=&x;a[0]=*p;}",
            "w 0",
        ),
        (
            "__kernel void k(__global int*a){uchar c[2];c[0]=1;a[0]=*(__global int*)a;a[0]=c[1];}",
            "__kernel void k(__global int*a){uchar c[2];c[1]=1;a[0]=c[1];}",
            "w 0",
        ),
        (
            "__kernel void k(__global int*a){__local int t[2];t[0]=1;a[0]=t[1];}",
            "__kernel void k(__global int*a){__local int t[2];t[0]=1;a[0]=t[0];}",
            "w 0",
        ),
        (
            "__kernel void k(__global int*a){__local int2 t;t.x=1;a[0]=t.y;}",
            "__kernel void k(__global int*a){__local int2 t;t.x=1;a[0]=t.x;}",
            "w 0",
        ),
        (
            "__kernel void k(__global int*a,__local int*t){t[0]=1;a[0]=t[1];}",
            "__kernel void k(__global int*a,__local int*t){t[1]=1;a[0]=t[1];}",
            "w 0 m 8",
        ),
        (
            "__kernel void k(__global int*a,__local int*t){atomic_inc(t);}",
            "__kernel void k(__global int*a,__local int*t){t[0]=1;atomic_inc(t);}",
            "w 0 m 8",
        ),
    ];
    for (undefined, defined, given) in table {
        assert!(rt;
            !is_defined(rt.alloc(), undefined, given, 1)?,
            "{undefined}"
        );
        assert!(rt; is_defined(rt.alloc(), defined, given, 1)?, "{defined}");
    }
    Ok(())
}

#[test]
fn tells_pointers_that_leave_their_arrays(rt: HostRuntime) -> Result<(), Fail> {
    let table: [Pair<'_>; 14] = [
        (
            "__kernel void k(__global int*a){int x[2];int*p=x;p=p-1;}",
            "__kernel void k(__global int*a){int x[2];int*p=x+1;p=p-1;}",
            "w 0 0",
        ),
        (
            "__kernel void k(__global int*a){int x[2];int*p=x;p=p+3;}",
            "__kernel void k(__global int*a){int x[2];int*p=x;p=p+2;}",
            "w 0 0",
        ),
        (
            "__kernel void k(__global int*a){int x;int*p=&x;p--;}",
            "__kernel void k(__global int*a){int x;int*p=&x+1;p--;}",
            "w 0 0",
        ),
        (
            "__kernel void k(__global int*a){int x;int*p=&x+2;}",
            "__kernel void k(__global int*a){int x;int*p=&x+1;}",
            "w 0 0",
        ),
        (
            "__kernel void k(__global int*a){__global int*p=a+3;}",
            "__kernel void k(__global int*a){__global int*p=a+2;}",
            "w 0 0",
        ),
        (
            "__kernel void k(__global int*a){__global int*p=a;p-=1;}",
            "__kernel void k(__global int*a){__global int*p=a+1;p-=1;}",
            "w 0 0",
        ),
        (
            "__kernel void k(__global int*a){__global int*p=a+2;++p;}",
            "__kernel void k(__global int*a){__global int*p=a+1;++p;}",
            "w 0 0",
        ),
        (
            "__kernel void k(__global int*a){__global int*p=a+1+2-1;}",
            "__kernel void k(__global int*a){__global int*p=a+1+1-1;}",
            "w 0 0",
        ),
        (
            "__kernel void k(__global int*a){int x[2][2];int*p=x[0]+3;}",
            "__kernel void k(__global int*a){int x[2][2];int*p=x[0]+2;}",
            "w 0 0",
        ),
        (
            "__kernel void k(__global int*a){int x[2][2];int*p=x[1]-1;}",
            "__kernel void k(__global int*a){int x[2][2];int*p=x[1]+1-1;}",
            "w 0 0",
        ),
        (
            "__kernel void k(__global int*a){__global int*p=a+4294967296l;}",
            "__kernel void k(__global int*a){__global int*p=a+(int)4294967296l;}",
            "w 0 0",
        ),
        (
            "__kernel void k(__global int*a){__local int t[2];__local int*p=t+3;}",
            "__kernel void k(__global int*a){__local int t[2];__local int*p=t+2;}",
            "w 0 0",
        ),
        (
            "__kernel void k(__global int*a){__global int*p=&a[3];}",
            "__kernel void k(__global int*a){__global int*p=&a[2];}",
            "w 0 0",
        ),
        (
            "__constant int c[2]={1,2};__kernel void k(__global int*a){__constant int*p=c+3;}",
            "__constant int c[2]={1,2};__kernel void k(__global int*a){__constant int*p=c+2;}",
            "w 0",
        ),
    ];
    for (undefined, defined, given) in table {
        assert!(rt;
            !is_defined(rt.alloc(), undefined, given, 1)?,
            "{undefined}"
        );
        assert!(rt; is_defined(rt.alloc(), defined, given, 1)?, "{defined}");
    }
    Ok(())
}

#[test]
fn tells_pointers_that_leave_their_arrays_in_other_ways(rt: HostRuntime) -> Result<(), Fail> {
    let table: [Pair<'_>; 6] = [
        (
            "__kernel void k(__global int*a){__global int*p=a+2;p++;}",
            "__kernel void k(__global int*a){__global int*p=a+1;p++;}",
            "w 0 0",
        ),
        (
            "__kernel void k(__global int*a){__global int*p=a;p+=3;}",
            "__kernel void k(__global int*a){__global int*p=a;p+=2;}",
            "w 0 0",
        ),
        (
            "__kernel void k(__global int*a){__global int*p=3+a;}",
            "__kernel void k(__global int*a){__global int*p=2+a;}",
            "w 0 0",
        ),
        (
            "__kernel void k(__global int*a){__global int*p=a+(-1);}",
            "__kernel void k(__global int*a){__global int*p=a+1+(-1);}",
            "w 0 0",
        ),
        (
            "__kernel void k(__global int*a,__local int*t){__local int*p=t+3;}",
            "__kernel void k(__global int*a,__local int*t){__local int*p=t+2;}",
            "w 0 m 8",
        ),
        (
            "typedef struct{int m[2];int n;}T;__kernel void k(__global int*a){T t;int*p=t.m+3;}",
            "typedef struct{int m[2];int n;}T;__kernel void k(__global int*a){T t;int*p=t.m+2;}",
            "w 0",
        ),
    ];
    for (undefined, defined, given) in table {
        assert!(rt;
            !is_defined(rt.alloc(), undefined, given, 1)?,
            "{undefined}"
        );
        assert!(rt; is_defined(rt.alloc(), defined, given, 1)?, "{defined}");
    }
    Ok(())
}

#[test]
fn tells_accesses_outside(rt: HostRuntime) -> Result<(), Fail> {
    let table: [Pair<'_>; 14] = [
        (
            "__kernel void k(__global int*a){int x[2]={1,2};a[0]=x[2];}",
            "__kernel void k(__global int*a){int x[2]={1,2};a[0]=x[1];}",
            "w 0 0",
        ),
        (
            "__kernel void k(__global int*a){int x[2]={1,2};a[0]=*(x+2);}",
            "__kernel void k(__global int*a){int x[2]={1,2};a[0]=*(x+1);}",
            "w 0 0",
        ),
        (
            "__kernel void k(__global int*a){int x[2];x[2]=1;}",
            "__kernel void k(__global int*a){int x[2];x[1]=1;}",
            "w 0 0",
        ),
        (
            "__kernel void k(__global int*a){a[2]=1;}",
            "__kernel void k(__global int*a){a[1]=1;}",
            "w 0 0",
        ),
        (
            "__kernel void k(__global int*a){a[0]=a[2];}",
            "__kernel void k(__global int*a){a[0]=a[1];}",
            "w 0 0",
        ),
        (
            "__kernel void k(__global int*a){atomic_inc(a+2);}",
            "__kernel void k(__global int*a){atomic_inc(a+1);}",
            "w 0 0",
        ),
        (
            "__kernel void k(__global int*a){int x[2][2]={{1,2},{3,4}};a[0]=x[0][2];}",
            "__kernel void k(__global int*a){int x[2][2]={{1,2},{3,4}};a[0]=x[1][0];}",
            "w 0 0",
        ),
        (
            "__kernel void k(__global int*a){int x=1;int*p=&x;a[0]=p[1];}",
            "__kernel void k(__global int*a){int x=1;int*p=&x;a[0]=p[0];}",
            "w 0 0",
        ),
        (
            "__kernel void k(__global int*a){__local int t[2];t[2]=1;}",
            "__kernel void k(__global int*a){__local int t[2];t[1]=1;}",
            "w 0 0",
        ),
        (
            "__constant int c[2]={1,2};__kernel void k(__global int*a){a[0]=c[2];}",
            "__constant int c[2]={1,2};__kernel void k(__global int*a){a[0]=c[1];}",
            "w 0 0",
        ),
        (
            "__kernel void k(__global int*a,__local int*t){t[2]=1;}",
            "__kernel void k(__global int*a,__local int*t){t[1]=1;}",
            "w 0 m 8",
        ),
        (
            "__kernel void k(__global int*a){int2 v=vload2(1,a);}",
            "__kernel void k(__global int*a){int2 v=vload2(0,a);}",
            "w 0 0 0",
        ),
        (
            "__kernel void k(__global int*a){vstore3((int3)(1),1,a);}",
            "__kernel void k(__global int*a){vstore3((int3)(1),0,a);}",
            "w 0*5",
        ),
        (
            "__kernel void k(__global int3*a){a[1]=(int3)(1);}",
            "__kernel void k(__global int3*a){a[0]=(int3)(1);}",
            "w 0*6",
        ),
    ];
    for (undefined, defined, given) in table {
        assert!(rt;
            !is_defined(rt.alloc(), undefined, given, 1)?,
            "{undefined}"
        );
        assert!(rt; is_defined(rt.alloc(), defined, given, 1)?, "{defined}");
    }
    Ok(())
}

#[test]
fn tells_parts_of_elements_that_are_not_inside(rt: HostRuntime) -> Result<(), Fail> {
    let table: [Pair<'_>; 10] = [
        (
            "typedef struct{int m,n;}S;__kernel void k(__global int*a){S s[2];int*p=&s[2].m;}",
            "typedef struct{int m,n;}S;__kernel void k(__global int*a){S s[2];int*p=&s[1].m;}",
            "w 0",
        ),
        (
            "typedef struct{int m,n;}S;__kernel void k(__global int*a){S s[2];int*p=&(s+2)->n;}",
            "typedef struct{int m,n;}S;__kernel void k(__global int*a){S s[2];int*p=&(s+1)->n;}",
            "w 0",
        ),
        (
            "__kernel void k(__global int*a){int x[2][2];int*p=x[2];}",
            "__kernel void k(__global int*a){int x[2][2];int*p=x[1];}",
            "w 0",
        ),
        (
            "__kernel void k(__global int*a){int x[2][2];int*p=&x[2][0];}",
            "__kernel void k(__global int*a){int x[2][2];int*p=&x[1][2];}",
            "w 0",
        ),
        (
            "typedef struct{int m,n;}S;__kernel void k(__global int*a){S s;S*p=&s+1;int*q=&p->m;}",
            "typedef struct{int m,n;}S;__kernel void k(__global int*a){S s;S*p=&s;int*q=&p->m;}",
            "w 0",
        ),
        (
            "typedef struct{int m,n;}S;__kernel void k(__global S*a){__global int*p=&a[1].m;}",
            "typedef struct{int m,n;}S;__kernel void k(__global S*a){__global int*p=&a[0].m;}",
            "w 0 0",
        ),
        (
            "typedef struct{int m[2];}T;__kernel void k(__global int*a){T t[1];int*p=t[1].m;}",
            "typedef struct{int m[2];}T;__kernel void k(__global int*a){T t[1];int*p=t[0].m+2;}",
            "w 0",
        ),
        (
            "__kernel void k(__global int2*a){__global int2*p=a+1;(*p).x=1;}",
            "__kernel void k(__global int2*a){__global int2*p=a+1;p[-1].x=1;}",
            "w 0 0",
        ),
        (
            "typedef struct{int m[2];}T;__kernel void k(__global int*a){T t[2];int*p=&t[2].m[0];}",
            "typedef struct{int m[2];}T;__kernel void k(__global int*a){T t[2];int*p=&t[1].m[0];}",
            "w 0",
        ),
        (
            "__kernel void k(__global int*a){__local int t[2][2];__local int*p=t[2];}",
            "__kernel void k(__global int*a){__local int t[2][2];__local int*p=t[1];}",
            "w 0",
        ),
    ];
    for (undefined, defined, given) in table {
        assert!(rt;
            !is_defined(rt.alloc(), undefined, given, 1)?,
            "{undefined}"
        );
        assert!(rt; is_defined(rt.alloc(), defined, given, 1)?, "{defined}");
    }
    Ok(())
}

#[test]
fn tells_pointers_into_different_arrays(rt: HostRuntime) -> Result<(), Fail> {
    let table: [Pair<'_>; 8] = [
        (
            "__kernel void k(__global int*a){int x[2][2];a[0]=x[0]<x[1];}",
            "__kernel void k(__global int*a){int x[2][2];a[0]=x[0]<x[0]+1;}",
            "w 0",
        ),
        (
            "__kernel void k(__global int*a){int x[2][2];a[0]=x[0]==x[1];}",
            "__kernel void k(__global int*a){int x[2][2];a[0]=x[0]==x[0]+2;}",
            "w 0",
        ),
        (
            "__kernel void k(__global int*a){int x[2][2];a[0]=x[0]!=x[1];}",
            "__kernel void k(__global int*a){int x[2][2];a[0]=x[1]!=x[1];}",
            "w 0",
        ),
        (
            "__kernel void k(__global int*a){int x[2][2];a[0]=x[1]-x[0];}",
            "__kernel void k(__global int*a){int x[2][2];a[0]=&x[1][2]-x[1];}",
            "w 0",
        ),
        (
            "__kernel void k(__global int*a){int x[2][2];a[0]=x[0]+2>=x[1];}",
            "__kernel void k(__global int*a){int x[2][2];a[0]=x[0]+2>=x[0];}",
            "w 0",
        ),
        (
            "typedef struct{int m,n;}S;__kernel void k(__global int*a){S s[2];a[0]=&s[0].m<&s[1].m;}",
            "typedef struct{int m,n;}S;__kernel void k(__global int*a){S s[2];a[0]=s<&s[1];}",
            "w 0",
        ),
        (
            "__kernel void k(__global int*a){int x[2][2];a[0]=x[0]>x[1];}",
            "__kernel void k(__global int*a){int x[2][2];a[0]=x[0]>x[0]+1;}",
            "w 0",
        ),
        (
            "__kernel void k(__global int*a){int x[2][2];a[0]=x[0]<=x[1];}",
            "__kernel void k(__global int*a){int x[2][2];a[0]=x[0]<=x[0]+2;}",
            "w 0",
        ),
    ];
    for (undefined, defined, given) in table {
        assert!(rt;
            !is_defined(rt.alloc(), undefined, given, 1)?,
            "{undefined}"
        );
        assert!(rt; is_defined(rt.alloc(), defined, given, 1)?, "{defined}");
    }
    Ok(())
}

#[test]
fn tells_results_that_are_missing(rt: HostRuntime) -> Result<(), Fail> {
    let table: [Pair<'_>; 8] = [
        (
            "int f(int x){if(x)return 1;}__kernel void k(__global int*a){a[0]=f(0);}",
            "int f(int x){if(x)return 1;}__kernel void k(__global int*a){a[0]=f(1);}",
            "w 0",
        ),
        (
            "int f(int x){if(x)return 1;}__kernel void k(__global int*a){int y=f(a[0]);}",
            "int f(int x){if(x)return 1;}__kernel void k(__global int*a){f(a[0]);}",
            "w 0",
        ),
        (
            "int f(int x){if(x)return 1;}__kernel void k(__global int*a){a[0]=(3,f(0));}",
            "int f(int x){if(x)return 1;}__kernel void k(__global int*a){a[0]=(f(0),3);}",
            "w 0",
        ),
        (
            "int f(int x){if(x)return 1;}__kernel void k(__global int*a){for(;f(0););}",
            "int f(int x){if(x)return 1;}__kernel void k(__global int*a){for(f(0);a[0]<1;f(0))a[0]++;}",
            "w 0",
        ),
        (
            "int f(int x){if(x)return 1;}__kernel void k(__global int*a){if(f(0))a[0]=1;}",
            "int f(int x){if(x)return 1;}__kernel void k(__global int*a){if(f(1))a[0]=1;}",
            "w 0",
        ),
        (
            "int f(int x){if(x)return 1;}int g(int x){return f(x);}__kernel void k(__global int*a){g(0);}",
            "int f(int x){if(x)return 1;}int g(int x){f(x);}__kernel void k(__global int*a){g(0);}",
            "w 0",
        ),
        (
            "int f(int x){if(x)return 1;}int g(int x){return 7;}__kernel void k(__global int*a){g(f(0));}",
            "int f(int x){if(x)return 1;}int g(int x){return 7;}__kernel void k(__global int*a){g(f(1));}",
            "w 0",
        ),
        (
            "int f(int x){if(x)return 1;}__kernel void k(__global int*a){f(0)+1;}",
            "int f(int x){if(x)return 1;}__kernel void k(__global int*a){f(2)+1;}",
            "w 0",
        ),
    ];
    for (undefined, defined, given) in table {
        assert!(rt;
            !is_defined(rt.alloc(), undefined, given, 1)?,
            "{undefined}"
        );
        assert!(rt; is_defined(rt.alloc(), defined, given, 1)?, "{defined}");
    }
    Ok(())
}

#[test]
fn tells_missing_results_wherever_they_are_used(rt: HostRuntime) -> Result<(), Fail> {
    let table: [Pair<'_>; 9] = [
        (
            "int f(int x){if(x)return 1;}__kernel void k(__global int*a){switch(f(0)){case 1:a[0]=1;}}",
            "int f(int x){if(x)return 1;}__kernel void k(__global int*a){switch(f(1)){case 1:a[0]=1;}}",
            "w 0",
        ),
        (
            "int f(int x){if(x)return 1;}__kernel void k(__global int*a){a[0]=a[f(0)];}",
            "int f(int x){if(x)return 1;}__kernel void k(__global int*a){a[0]=a[f(1)];}",
            "w 0 0",
        ),
        (
            "int f(int x){if(x)return 1;}__kernel void k(__global int*a){a[0]=f(0)?1:2;}",
            "int f(int x){if(x)return 1;}__kernel void k(__global int*a){a[0]=f(1)?1:2;}",
            "w 0",
        ),
        (
            "int f(int x){if(x)return 1;}__kernel void k(__global int*a){a[0]=1&&f(0);}",
            "int f(int x){if(x)return 1;}__kernel void k(__global int*a){a[0]=0&&f(0);}",
            "w 0",
        ),
        (
            "int f(int x){if(x)return 1;}__kernel void k(__global int*a){a[0]=1?f(0):2;}",
            "int f(int x){if(x)return 1;}__kernel void k(__global int*a){a[0]=0?f(0):2;}",
            "w 0",
        ),
        (
            "int f(int x){if(x)return 1;}__kernel void k(__global int*a){(long)f(0);}",
            "int f(int x){if(x)return 1;}__kernel void k(__global int*a){(long)f(1);}",
            "w 0",
        ),
        (
            "int f(int x){if(x)return 1;}__kernel void k(__global int*a){int x[1]={f(0)};}",
            "int f(int x){if(x)return 1;}__kernel void k(__global int*a){int x[1]={f(1)};}",
            "w 0",
        ),
        (
            "int f(int x){if(x)return 1;}__kernel void k(__global int*a){do;while(f(0)>1);}",
            "int f(int x){if(x)return 1;}__kernel void k(__global int*a){do;while(f(1)>1);}",
            "w 0",
        ),
        (
            "int f(int x){if(x)return 1;}__kernel void k(__global int*a){a[0]+=f(0);}",
            "int f(int x){if(x)return 1;}__kernel void k(__global int*a){a[0]+=f(1);}",
            "w 0",
        ),
    ];
    for (undefined, defined, given) in table {
        assert!(rt;
            !is_defined(rt.alloc(), undefined, given, 1)?,
            "{undefined}"
        );
        assert!(rt; is_defined(rt.alloc(), defined, given, 1)?, "{defined}");
    }
    Ok(())
}

#[test]
fn tells_groups_that_wait_at_different_barriers(rt: HostRuntime) -> Result<(), Fail> {
    let table: [Pair<'_>; 8] = [
        (
            "__kernel void k(__global int*a){if(get_local_id(0)==0)barrier(CLK_LOCAL_MEM_FENCE);}",
            "__kernel void k(__global int*a){if(get_group_id(0)==0)barrier(CLK_LOCAL_MEM_FENCE);}",
            "g 2 l 2 w 0",
        ),
        (
            "void w(void){barrier(1);}__kernel void k(__global int*a){if(get_local_id(0)==0)w();else w();}",
            "void w(void){barrier(1);}__kernel void k(__global int*a){if(get_group_id(0)==0)w();else w();}",
            "g 4 l 2 w 0",
        ),
        (
            "__kernel void k(__global int*a){if(get_local_id(0))barrier(1);else barrier(1);}",
            "__kernel void k(__global int*a){if(get_group_id(0))barrier(1);else barrier(1);}",
            "g 4 l 2 w 0",
        ),
        (
            "__kernel void k(__global int*a){for(uint i=0;i<=get_local_id(0);i++)barrier(1);}",
            "__kernel void k(__global int*a){for(uint i=0;i<get_local_size(0);i++)barrier(1);}",
            "g 4 l 2 w 0",
        ),
        (
            "__kernel void k(__global int*a){if(get_local_id(0)==1)return;barrier(1);}",
            "__kernel void k(__global int*a){if(get_group_id(0)==1)return;barrier(1);}",
            "g 4 l 2 w 0",
        ),
        (MACRO_BY_ITEM, MACRO_BY_GROUP, "g 4 l 2 w 0"),
        (
            "void v(void){barrier(1);}void w(int n){if(n)v();else v();}__kernel void k(__global int*a){w(get_local_id(0));}",
            "void v(void){barrier(1);}void w(int n){if(n)v();else v();}__kernel void k(__global int*a){w(get_group_id(0));}",
            "g 4 l 2 w 0",
        ),
        (
            "__kernel void k(__global int*a){if(get_local_id(0)==1)a[0]=1;else barrier(1);}",
            "__kernel void k(__global int*a){if(get_local_id(0)==1)a[0]=1;barrier(1);}",
            "g 2 l 2 w 0",
        ),
    ];
    for (undefined, defined, given) in table {
        assert!(rt;
            !is_defined(rt.alloc(), undefined, given, 1)?,
            "{undefined}"
        );
        assert!(rt; is_defined(rt.alloc(), defined, given, 1)?, "{defined}");
        assert!(rt;
            !is_defined(rt.alloc(), undefined, given, 1_000_000)?,
            "{undefined}"
        );
        assert!(rt;
            is_defined(rt.alloc(), defined, given, 1_000_000)?,
            "{defined}"
        );
    }
    Ok(())
}
